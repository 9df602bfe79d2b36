use super::pictures::{Part, hand, number};
use groups::Hand;
use memory::TableMemory;
use survey::{Counts, survey};
use words::{Permission, Refusal};

const ALL: Part = (Permission::RW, 0, 65536);

// What a survey that marks this many cells answers, all of them writable.
fn all_writable(cells: usize) -> Result<Counts, u32> {
    Ok(Counts {
        marked: cells,
        writable: cells,
    })
}

// The two counts, or the refusal by its number, which is what the rules give it.
fn answer(numbers: &mut [u64], held: &Hand, chart: &mut [u8]) -> Result<Counts, u32> {
    survey(&TableMemory::new(numbers), held, chart).map_err(Refusal::number)
}

#[test]
fn a_chart_is_as_long_as_the_memory_or_longer(rt: HostRuntime) {
    let held = hand(ALL, ALL);
    let mut chart = [9; 4];
    assert_eq!(rt; answer(&mut [0; 4], &held, &mut chart[0..3]), Err(6));
    assert_eq!(rt; chart, [9; 4]);
    assert_eq!(rt;
        answer(&mut [0; 3], &held, &mut chart[0..3]),
        all_writable(3)
    );
    assert_eq!(rt; chart, [2, 2, 2, 9]);
    assert_eq!(rt;
        answer(&mut [0; 1], &Hand::new(), &mut chart),
        all_writable(0)
    );
    assert_eq!(rt; chart, [0, 2, 2, 9]);
    assert_eq!(rt; answer(&mut [], &held, &mut chart), all_writable(0));
    assert_eq!(rt; chart, [0, 2, 2, 9]);
    assert_eq!(rt; answer(&mut [], &held, &mut []), all_writable(0));
}

#[test]
fn every_cell_of_the_largest_memory_covers_all(rt: HostRuntime) {
    let mut numbers = [number(ALL); 65_536];
    let mut chart = [9; 65_536];
    let held = hand((Permission::RO, 65_535, 65_536), (Permission::O, 0, 0));
    assert_eq!(rt;
        answer(&mut numbers, &held, &mut chart),
        all_writable(65_536)
    );
    assert!(rt; chart[0] == 2 && chart[65_535] == 2);
}
