//! Where an element ends, by the headers of what is in it (X.690 8.1.2, 8.1.3), as far as they are at hand.
//!
//! It says when octets are worth reading: nothing that is said of them rests on it.
ghost use Rattle.std.specs.Prelude.{◌≡◌, ◌<◌, ◌≤◌, IfSome, length, true};

/// The end of an element, as far as headers were gone over.
#[derive(Clone, Copy)]
pub(crate) struct ElementEnd {
    /// The octets that it has at least.
    at: usize,
    /// How many elements of indefinite length are open behind them.
    open: usize,
    is_begun: bool,
}

impl ElementEnd {
    /// No octet of it is seen.
    pub(crate) fn new() -> ElementEnd {
        ElementEnd {
            at: 0,
            open: 0,
            is_begun: false,
        }
    }

    /// Whether its end is seen, and these octets have it.
    pub(crate) fn is_in(self, octets: &[u8]) -> bool
        ensures { result ≡ true → self.at ≤ length octets.now }
    {
        self.is_begun && self.open == 0 && self.at <= octets.len()
    }

    /// The same behind the headers that these octets have, which begin with those that were seen before.
    pub(crate) fn over(self, octets: &[u8]) -> ElementEnd {
        let mut end = self;
        while end.at < octets.len() && !(end.is_begun && end.open == 0) {
            let Some(next) = end.behind_next(&octets[end.at..]) else {
                return end;
            };
            end = next;
        }
        end
    }

    /// Behind the next header, and its contents where it has a definite length; `None` where it isn't at hand.
    fn behind_next(self, octets: &[u8]) -> Option<ElementEnd>
        ensures { IfSome result (λ next. self.at < next.at) }
    {
        let (size, length) = header_of(octets)?;
        let Some(contents) = length else {
            return Some(ElementEnd {
                at: self.at.checked_add(size)?,
                open: self.open.checked_add(1)?,
                is_begun: true,
            });
        };
        // (end-of-contents octets)
        let open = match octets {
            [0, ..] if self.open > 0 => self.open - 1,
            _ => self.open,
        };
        Some(ElementEnd {
            at: self.at.checked_add(size)?.checked_add(contents)?,
            open,
            is_begun: true,
        })
    }
}

/// The octets of the header that these begin with, and the length in it; that is `None` where it is indefinite.
fn header_of(octets: &[u8]) -> Option<(usize, Option<usize>)>
    ensures { IfSome result (λ header. 0 < header.0) }
{
    let size = identifier_size(octets)?;
    let rest = octets.get(size..)?;
    let [first, behind @ ..] = rest else {
        return None;
    };
    if *first < 128 {
        return Some((size + 1, Some(usize::from(*first))));
    }
    if *first == 128 {
        return Some((size + 1, None));
    }
    let count = usize::from(*first - 128);
    let length = number_of(behind.get(..count)?);
    Some((size + 1 + count, Some(length)))
}

/// The octets of an identifier (X.690 8.1.2.4).
fn identifier_size(octets: &[u8]) -> Option<usize>
    ensures { IfSome result (λ size. size ≤ 5) }
{
    match octets {
        [] => None,
        [first, ..] if *first % 32 != 31 => Some(1),
        [_, last, ..] if *last < 128 => Some(2),
        [_, _, last, ..] if *last < 128 => Some(3),
        [_, _, _, last, ..] if *last < 128 => Some(4),
        [_, _, _, _, _, ..] => Some(5),
        _ => None,
    }
}

/// The number that these octets are, or the greatest.
fn number_of(octets: &[u8]) -> usize {
    let mut number: usize = 0;
    for octet in octets {
        number = number
            .saturating_mul(256)
            .saturating_add(usize::from(*octet));
    }
    number
}
