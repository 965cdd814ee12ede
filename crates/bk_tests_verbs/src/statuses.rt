// The exit code of each status.

use bk_verbs::Status;

const CODES: &[(Status, u8)] = &[
    (Status::Done, 0),
    (Status::Usage, 1),
    (Status::Missing, 2),
    (Status::Refused, 3),
    (Status::Unproved, 4),
    (Status::Incomplete, 5),
    (Status::BadCalls, 6),
    (Status::Trapped, 7),
    (Status::OutOfFuel, 8),
    (Status::BadImage, 9),
    (Status::ReadFault, 10),
    (Status::WriteFault, 11),
    (Status::Memory, 12),
];

#[test]
fn exit_codes(rt: HostRuntime) {
    for (status, code) in CODES {
        assert_eq!(rt; status.code(), *code);
    }
}
