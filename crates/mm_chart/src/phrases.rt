//! The words that a chart is made of.

/// The most ranges that are listed.
pub const MANY_RANGES: u64 = 6;

/// Where the other lines of a list of stores begin.
pub const INDENT: u32 = 32;

/// How many stores stand on a line of names.
pub const FEW_NAMES: usize = 8;

/// How many stores stand on a line with what they lose.
pub const FEW_LOSSES: usize = 4;

// The end of the headline: of a plan that loses least, of one that also loses least of the first stores, and of a cut
// that shows less.
pub const NO_FEWER: &[u8] = b" blocks are lost, and no plan loses fewer";

pub const IN_ORDER: &[u8] = b" blocks are lost, and no plan loses fewer in the setup's order";

pub const ONLY_SHOWN: &[u8] =
    b" blocks are lost; this cut shows only that no plan loses fewer than ";

// The headline of a plan whose text says another loss, before the loss and after it.
pub const PLAN_LOSES: &[u8] = b"The plan loses ";

pub const TEXT_SAYS: &[u8] = b" blocks; its text says ";

// What follows the number of steps that are too many to list.
pub const MARKED_WINDOWS: &[u8] = b" steps marked in the row of the windows,";

pub const MARKED_PASSES: &[u8] = b" steps marked in the row of the windows that have one,";

pub const MARKED_LIMITS: &[u8] = b" steps marked in the rows of the channels,";

pub const MARKED_WORTH: &[u8] = b" steps that have a bar above the windows";

pub const MARKED: &[u8] = b" steps,";

// The sum: its heading, and the words before and after its numbers.
pub const WHY: &[u8] = b"Why no plan loses fewer than ";

pub const IN_STRETCHES: &[u8] = b"In the shaded stretches ";

pub const COME: &[u8] = b" blocks come, or stand there as step 1 begins.";

pub const AS_ENDS: &[u8] = b"As each stretch ends, at most ";

pub const STAND: &[u8] = b" of them stand in the stores: the sizes of the stores.";

pub const BY_WINDOWS: &[u8] = b" leave by the windows.";

pub const NO_WINDOWS: &[u8] = b"No open window counts.";

pub const BY_LIMITS: &[u8] = b" leave by the limits of the channels.";

pub const NO_LIMITS: &[u8] = b"No limit of a channel counts.";

pub const AT_LEAST: &[u8] = b": at least that many blocks are lost, whatever is dumped.";

// What may help: its heading, then windows, limits, stores and arrivals.
pub const HELP: &[u8] =
    b"What may help: only these changes can lower the loss, and one of them alone may not be enough";

pub const WIDER: &[u8] = b" and only there, a wider window.";

pub const NO_WIDER: &[u8] = b"No wider window.";

pub const HIGHER: &[u8] =
    b" and only there, a higher limit of a marked channel, or another channel for a shaded store.";

pub const NO_HIGHER: &[u8] = b"No higher limit, and no other channel for a store.";

pub const LARGER: &[u8] = b"Larger stores, and only these:";

pub const FEWER: &[u8] =
    b"In the shaded stretches, and only there, fewer blocks that come, or stand there as step 1 begins.";

// What one wider window, one larger store or one higher limit is worth.
pub const SAVES: &[u8] = b"saves up to ";

pub const ONE_WIDER: &[u8] =
    b"What one wider window saves: a block for each block that it is wider, up to the number in brackets";

pub const NO_OTHER: &[u8] = b" and in no other.";

pub const NONE_WIDER: &[u8] = b"In no step: no wider window saves a block by itself.";

pub const ONE_LARGER: &[u8] =
    b"What one larger store saves at most stands above its name: nothing where it saves none.";

pub const ONE_HIGHER: &[u8] =
    b"What one higher limit saves at most, for all steps or for one, stands above its channel's row: nothing where it \
    saves none.";

// What the first stores lose.
pub const FIRSTS: &[u8] =
    b"In the setup's order: what each store and those before it lose. No plan loses fewer of them.";

pub const LOSE: &[u8] = b"Up to each store:";
