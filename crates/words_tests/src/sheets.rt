use sheet::{LONGEST, read_sheet};

// A length of an input of zeros, the place of a byte that is set to 1, if one is, and the refusal's number and offset, if it is no sheet.
const INPUTS: [(usize, Option<usize>, Result<(), (u32, usize)>); 16] = [
    (0, None, Err((7, 0))),
    (131, None, Err((7, 0))),
    (132, None, Ok(())),
    (133, None, Err((7, 0))),
    (140, None, Ok(())),
    (16516, None, Ok(())),
    (16517, None, Err((7, 0))),
    (16524, None, Err((7, 0))),
    (132, Some(0), Ok(())),
    (132, Some(7), Err((5, 4))),
    (132, Some(8), Ok(())),
    (132, Some(124), Err((5, 124))),
    (140, Some(132), Err((5, 132))),
    (140, Some(135), Err((5, 132))),
    (16516, Some(16508), Err((5, 16508))),
    (133, Some(7), Err((7, 0))),
];

// The refusal, by its number, which is what the rules give a refusal, and its offset, if there is one.
fn read(bytes: &[u8]) -> Result<(), (u32, usize)> {
    read_sheet(bytes)
        .map(|_| ())
        .map_err(|malformed| (malformed.refusal.number(), malformed.offset))
}

fn read_with(length: usize, place: Option<usize>) -> Result<(), (u32, usize)> {
    let mut bytes = [0u8; 16524];
    if let Some(byte) = place.and_then(|place| bytes.get_mut(place)) {
        *byte = 1;
    }
    read(&bytes[..length.min(16524)])
}

#[test]
fn inputs_are_sheets_or_refused(rt: HostRuntime) {
    for (length, place, expected) in INPUTS {
        assert_eq!(rt; read_with(length, place), expected);
    }
    assert_eq!(rt; LONGEST, 16516);
}
