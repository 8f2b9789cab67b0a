//! Laws on rooms and shares. The contract of each function is a law.
ghost use Rattle.std.specs.Prelude.{◌≡◌};
ghost use Rattle.mm_links.specs.declared.limits.TheConstants.{MAX_LINKS};
ghost use Rattle.mm_links.specs.Laws.{SharesHaveRoom, WindowIsWidest};

/// Of no set of channels is more shared out than the links can send of it. So the condition on each set of channels,
/// which a window keeps, is needed too (Gale, "A theorem on flows in networks", 1957).
pub fn shares_have_room()
    ensures { SharesHaveRoom }
{}

/// If all amounts that keep the limits and some window can be shared out, and that window is at most the sum of the
/// links' windows, it is no wider than the one found.
pub fn window_is_widest()
    ensures { WindowIsWidest }
{}

/// The number of the constant.
pub fn constants_are()
    ensures { MAX_LINKS ≡ 256 }
{}
