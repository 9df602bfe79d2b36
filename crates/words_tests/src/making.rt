use words::{Bounds, Capability, Order, Permission};

// Permission, locality, base, end and cursor, and the refusal, if it is refused: by its number, which is what the rules give a refusal.
const MADE: [([u32; 5], Result<(), u32>); 14] = [
    ([0, 0, 0, 0, 0], Ok(())),
    ([7, 1, 65536, 65536, 65536], Ok(())),
    ([2, 0, 9, 3, 5], Ok(())),
    ([8, 0, 0, 0, 0], Err(4)),
    ([0, 2, 0, 0, 0], Err(4)),
    ([0, 0, 65537, 0, 0], Err(3)),
    ([0, 0, 0, 65537, 0], Err(3)),
    ([0, 0, 0, 0, 65537], Err(3)),
    ([0, 0, 4294967295, 0, 0], Err(3)),
    ([8, 0, 65537, 0, 0], Err(4)),
    ([0, 3, 0, 65537, 0], Err(4)),
    ([4294967295, 0, 0, 0, 0], Err(4)),
    ([0, 4294967295, 0, 0, 0], Err(4)),
    ([5, 1, 0, 65536, 0], Ok(())),
];

fn made([permission, locality, base, end, cursor]: [u32; 5]) -> Result<(), u32> {
    Capability::from_numbers(permission, locality, base, end, cursor)
        .map(|_| ())
        .map_err(|refusal| refusal.number())
}

#[test]
fn capabilities_are_made_or_refused(rt: HostRuntime) {
    for (parts, expected) in MADE {
        assert_eq!(rt; made(parts), expected);
    }
}

// For each permission, in the order of the codes, those that are above it: one bit each, O the lowest, since eight lists of permissions would be longer to read.
const ABOVE: [u32; 8] = [
    0b11111111, 0b11011110, 0b11001100, 0b10001000, 0b11010000, 0b11110000, 0b11000000, 0b10000000,
];

fn is_above(code: u32, other: u32) -> bool {
    match (Permission::try_from(code), Permission::try_from(other)) {
        (Ok(lower), Ok(upper)) => lower.below(&upper),
        _ => false,
    }
}

#[test]
fn permissions_are_ordered(rt: HostRuntime) {
    for (code, above) in (0..8u32).zip(ABOVE) {
        for other in 0..8u32 {
            assert_eq!(rt; is_above(code, other), (above >> other) % 2 == 1);
        }
    }
}

// Two pairs of a base and an end, and whether the first is below the second.
const INSIDE: [([u32; 2], [u32; 2], bool); 6] = [
    ([2, 3], [2, 3], true),
    ([2, 3], [0, 65536], true),
    ([1, 3], [2, 3], false),
    ([2, 4], [2, 3], false),
    ([9, 0], [5, 7], true),
    ([5, 7], [9, 0], false),
];

fn bounds([base, end]: [u32; 2]) -> Bounds {
    Bounds { base, end }
}

#[test]
fn bounds_are_ordered(rt: HostRuntime) {
    for (lower, upper, expected) in INSIDE {
        assert_eq!(rt; bounds(lower).below(&bounds(upper)), expected);
    }
}
