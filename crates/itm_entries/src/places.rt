//! Where the entries of barriers stand in the list.

/// What the names of a group's barriers begin with, and where the first of them stands.
static GROUPS: [(&[u8], usize); 8] = [
    (b"_ITM_R", 7),
    (b"_ITM_W", 51),
    (b"_ITM_RaR", 18),
    (b"_ITM_RaW", 29),
    (b"_ITM_RfW", 40),
    (b"_ITM_WaR", 62),
    (b"_ITM_WaW", 73),
    (b"_ITM_L", 84),
];

/// How they end, in their order.
static SUFFIXES: [&[u8]; 11] = [
    b"U1", b"U2", b"U4", b"U8", b"F", b"D", b"M64", b"M128", b"M256", b"CF", b"CD",
];

/// Where the barrier of a width stands in its group.
fn place_in_group(suffix: &[u8]) -> Option<usize> {
    SUFFIXES.iter().position(|end| *end == suffix)
}

/// Where the barrier of this name stands in the list, as far as its spelling tells.
pub(crate) fn barrier_place(text: &[u8]) -> Option<usize> {
    for (stem, first) in &GROUPS {
        let Some(suffix) = text.strip_prefix(*stem) else {
            continue;
        };
        if let Some(nth) = place_in_group(suffix) {
            return first.checked_add(nth);
        }
    }
    None
}
