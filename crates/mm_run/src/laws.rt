//! The numbers of this crate's constants.
ghost use Rattle.std.specs.Prelude.{◌≡◌};
ghost use Rattle.mm_report.specs.declared.cause.TheConstants.{MAX_SOURCES};
ghost use Rattle.mm_run.specs.declared.source.TheConstants.{MAX_PACKETS};
ghost use Rattle.mm_run.specs.declared.link.TheConstants.{MAX_WRITTEN, MAX_SEND};

/// The greatest number of a source, the most packets of a source in a step, the most links that a text says, and the
/// greatest number of a send.
pub fn constants_are()
    ensures sources { MAX_SOURCES ≡ 8 }
    ensures packets { MAX_PACKETS ≡ 65535 }
    ensures links { MAX_WRITTEN ≡ 99 }
    ensures send { MAX_SEND ≡ 4294967295 }
{}
