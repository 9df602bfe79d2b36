// Each fault, with its number.
use model::Fault;
use words::Refusal;

const FAULTS: [(Fault, u32); 13] = [
    (Fault::NotExecutable, 11),
    (Fault::NoInstruction, 12),
    (Fault::WrongKind, 13),
    (Fault::NotPermitted, 14),
    (Fault::NotCovered, 15),
    (Fault::NoCell(Refusal::NoCell), 16),
    (Fault::LocalNotStorable, 17),
    (Fault::OutOfRange, 18),
    (Fault::NotBelow, 19),
    (Fault::ZeroDivisor, 20),
    (Fault::OrderedFail, 21),
    (Fault::CannotAdvance, 22),
    (Fault::UnknownPair, 23),
];

#[test]
fn faults_have_their_numbers(rt: HostRuntime) {
    for (fault, number) in FAULTS {
        assert_eq!(rt; fault.number(), number);
    }
}
