//! Laws over the calls of a service, and the numbers of this crate's constants.
ghost use Rattle.std.specs.Prelude.{◌≡◌};
ghost use Rattle.mm_service.specs.declared.answers.TheConstants.{DONE, INSTRUCTIONS};
ghost use Rattle.mm_service.specs.Accounts.{AccountForCalls, GiveWhatWasBrought};
ghost use Rattle.mm_service.specs.declared.requesting.TheConstants.{ACKNOWLEDGEMENTS};

/// Over any calls on a service no packet is lost uncounted, and none is invented: they are calls on its memory, of the
/// packets that the octets are, and over those the packets of each store are accounted for. What `next` gave, octet for
/// octet, is what the store gave, and one retrieval gives its whole range; it was held at first, or came by `offer` or
/// `record`.
pub fn services_lose_no_packet_uncounted()
    ensures law { AccountForCalls }
    ensures given { GiveWhatWasBrought }
{
    mm_memory::laws::memories_lose_no_packet_uncounted();
    mm_memory::laws::retrievals_give_their_range();
}

/// The code of an instruction that is carried out, the most instructions of a request, and the number of values of
/// acknowledgement flags.
pub fn constants_are()
    ensures done { DONE ≡ 255 }
    ensures instructions { INSTRUCTIONS ≡ 255 }
    ensures acknowledgements { ACKNOWLEDGEMENTS ≡ 16 }
{}
