//! Sets of spans.

/// At most one span for each step.
pub(crate) const MAX_SPANS: usize = 256;

/// Keeps the number of a span below `MAX_SPANS`.
pub(crate) const SPAN_MASK: usize = 255;

/// A set of spans, one bit for each.
#[derive(Clone, Copy)]
pub(crate) struct SpanSet([u64; 4]);

impl SpanSet {
    pub(crate) const NONE: SpanSet = SpanSet([0; 4]);

    /// All spans.
    pub(crate) const ALL: SpanSet = SpanSet([u64::MAX; 4]);

    // The spans from `first` to before `end`.
    pub(crate) fn between(first: usize, end: usize) -> SpanSet {
        SpanSet::from(first).without(SpanSet::from(end))
    }

    // The spans from `first` on.
    fn from(first: usize) -> SpanSet {
        let mut set = SpanSet::NONE;
        for word in 0..4 {
            if first >> 6 < word {
                set.0[word] = u64::MAX;
            } else if first >> 6 == word {
                set.0[word] = u64::MAX << (first & 63);
            }
        }
        set
    }

    // The union of two sets.
    pub(crate) fn either(self, other: SpanSet) -> SpanSet {
        let mut set = self;
        for word in 0..4 {
            set.0[word] |= other.0[word];
        }
        set
    }

    // The intersection of two sets.
    pub(crate) fn both(self, other: SpanSet) -> SpanSet {
        let mut set = self;
        for word in 0..4 {
            set.0[word] &= other.0[word];
        }
        set
    }

    // The spans that are in the set and not in the other.
    pub(crate) fn without(self, other: SpanSet) -> SpanSet {
        let mut set = self;
        for word in 0..4 {
            set.0[word] &= !other.0[word];
        }
        set
    }

    pub(crate) fn is_empty(self) -> bool {
        self.0[0] | self.0[1] | self.0[2] | self.0[3] == 0
    }

    pub(crate) fn has(self, span: usize) -> bool {
        self.0[span >> 6 & 3] >> (span & 63) & 1 == 1
    }

    // Adds a span if `is_in`, and removes it otherwise.
    pub(crate) fn put(&mut self, span: usize, is_in: bool) {
        let bit = 1 << (span & 63);
        let word = &mut self.0[span >> 6 & 3];
        *word = *word & !bit | u64::from(is_in) << (span & 63);
    }

    // For each span of the set, the next one.
    pub(crate) fn next(self) -> SpanSet {
        let mut set = SpanSet::NONE;
        let mut carry = 0;
        for word in 0..4 {
            set.0[word] = self.0[word] << 1 | carry;
            carry = self.0[word] >> 63;
        }
        set
    }

    // The spans of the set, and those after each of them as long as they are in `way` without a gap.
    pub(crate) fn spread(self, way: SpanSet) -> SpanSet {
        let begin = self.next().both(way);
        let mut set = self.either(begin);
        let mut carry = 0;
        for word in 0..4 {
            let sum = way.0[word].wrapping_add(begin.0[word]);
            let all = sum.wrapping_add(carry);
            carry = u64::from(sum < way.0[word]) | u64::from(all < sum);
            set.0[word] |= way.0[word] & !all;
        }
        set
    }

    // The spans of the set, and those before each of them as long as they are in `way` without a gap.
    pub(crate) fn spread_back(self, way: SpanSet) -> SpanSet {
        let mut set = self;
        let mut carry = 0;
        for back in 0..4 {
            let word = 3 - back;
            let mut bits = self.0[word] | way.0[word] & carry;
            let mut way = way.0[word];
            let mut by = 1u32;
            for _ in 0..6 {
                if way & bits >> 1 & !bits == 0 {
                    break;
                }
                bits |= way & bits >> (by & 63);
                way &= way >> (by & 63);
                by = by.wrapping_mul(2);
            }
            set.0[word] = bits;
            carry = bits << 63;
        }
        set
    }

    // The span of the set that is nearest to a given one, if there is any.
    pub(crate) fn nearest(self, span: usize) -> Option<usize> {
        match (self.last_before(span), self.first_from(span)) {
            (Some(before), Some(after)) => {
                if span.saturating_sub(before) < after.saturating_sub(span) {
                    Some(before)
                } else {
                    Some(after)
                }
            }
            (None, after) => after,
            (before, None) => before,
        }
    }

    // All spans that are not in the set.
    pub(crate) fn not(self) -> SpanSet {
        SpanSet::ALL.without(self)
    }

    // The last span before `end`, if there is any.
    pub(crate) fn last_before(self, end: usize) -> Option<usize> {
        self.without(SpanSet::from(end)).last()
    }

    pub(crate) fn add(&mut self, span: usize) {
        self.0[span >> 6 & 3] |= 1 << (span & 63);
    }

    pub(crate) fn remove(&mut self, span: usize) {
        self.0[span >> 6 & 3] &= !(1 << (span & 63));
    }

    // The first span from `from` on, if there is one.
    pub(crate) fn first_from(&self, from: usize) -> Option<usize> {
        let mut before = u64::MAX << (from & 63);
        for word in from >> 6..4 {
            let bits = self.0[word & 3] & before;
            if bits != 0 {
                return Some((word & 3) << 6 | bits.trailing_zeros() as usize);
            }
            before = u64::MAX;
        }
        None
    }

    // Removes the first span and returns it, if there is one.
    pub(crate) fn take_first(&mut self) -> Option<usize> {
        let first = self.first_from(0)?;
        self.remove(first);
        Some(first)
    }

    // The last span, if there is one.
    pub(crate) fn last(&self) -> Option<usize> {
        for at in 0..4 {
            let word = 3 - at;
            let bits = self.0[word];
            if bits != 0 {
                let place = 63u32.saturating_sub(bits.leading_zeros());
                return Some(word << 6 | place as usize);
            }
        }
        None
    }
}
