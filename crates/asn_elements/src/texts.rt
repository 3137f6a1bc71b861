// The texts of members that stand one after another, and whether they are in the order of SET OF (X.690 11.6).
ghost use Rattle.std.specs.Prelude.{◌≡◌, ◌<◌, ◌↔◌, List, [], IsSorted, IsTrue, get_or, length, map};
ghost use Rattle.std.specs.Cmp.Lexicographic.{slice_cmp};
ghost use Rattle.std.specs.Ordering.{nat_cmp};
ghost use Rattle.x690.specs.DerTexts.{der};
ghost use Rattle.x690.specs.Values.{Value};
ghost use Rattle.asn_elements.specs.Members.{StandIn};

/// The text at this place, of texts that stand one after another, each beginning at one of `starts`.
pub fn text_at<'a>(octets: &'a [u8], starts: &[u64], i: usize) -> &'a [u8]
    requires stand { (values : List Value) × StandIn values octets.now starts.now }
    requires inside { i < length starts.now }
    ensures { (values : List Value) → StandIn values octets.now starts.now
        → result.now ≡ get_or (map der values) i [] }
{
    let end = if i + 1 < starts.len() {
        starts[i + 1] as usize
    } else {
        octets.len()
    };
    &octets[starts[i] as usize..end]
}

/// Whether no text is less than the one before it.
pub fn ascend(octets: &[u8], starts: &[u64]) -> bool
    requires { (values : List Value) × StandIn values octets.now starts.now }
    ensures { (values : List Value) → StandIn values octets.now starts.now
        → (IsTrue result ↔ IsSorted (slice_cmp nat_cmp) (map der values)) }
{
    for i in 1..starts.len() {
        let before = text_at(octets, starts, i - 1);
        if text_at(octets, starts, i).cmp(before).is_lt() {
            return false;
        }
    }
    true
}
