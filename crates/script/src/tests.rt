use crate::{Command, Line, read};
use std::process::Abort;
use who::Who;

#[test]
fn commands(rt: HostRuntime) {
    assert_eq!(rt; read(b"move", 32), Some(Command::Move));
    assert_eq!(rt; read(b"round 0", 32), Some(Command::Round { rounds: 0 }));
    assert_eq!(rt;
        read(b"write 31 18446744073709551615", 32),
        Some(Command::Write {
            page: 31,
            word: u64::MAX,
        })
    );
    assert_eq!(rt;
        read(b"fall 0 1 before", 32),
        Some(Command::Fall {
            host: Who::Zero,
            ask: 1,
            after: false,
        })
    );
    assert_eq!(rt;
        read(b"fall 1 20 after", 32),
        Some(Command::Fall {
            host: Who::One,
            ask: 20,
            after: true,
        })
    );
    assert_eq!(rt;
        read(b"lose 4294967295", 32),
        Some(Command::Lose { letter: u32::MAX })
    );
    assert_eq!(rt; read(b"again", 32), Some(Command::Again));
    assert_eq!(rt;
        read(b"any 10 7", 32),
        Some(Command::Any {
            seed: 10,
            rounds: 7,
        })
    );
    assert_eq!(rt; read(b"where", 32), Some(Command::Where));
    assert_eq!(rt; read(b"anew", 32), Some(Command::Anew));
}

fn refused(rt: &impl Abort, line: &[u8]) {
    assert_eq!(rt; read(line, 32), None);
}

#[test]
fn other_words(rt: HostRuntime) {
    refused(&rt, b"");
    refused(&rt, b"Move");
    refused(&rt, b"move ");
    refused(&rt, b" move");
    refused(&rt, b"move 1");
    refused(&rt, b"round");
    refused(&rt, b"round  1");
    refused(&rt, b"any 1 2 3");
    refused(&rt, b"fall 0 1 during");
    refused(&rt, b"\xff");
}

#[test]
fn other_numbers(rt: HostRuntime) {
    refused(&rt, b"round 007");
    refused(&rt, b"round +1");
    refused(&rt, b"round -1");
    refused(&rt, b"round 4294967296");
    refused(&rt, b"write 0 18446744073709551616");
    refused(&rt, b"write 32 1");
    refused(&rt, b"fall 2 1 after");
    refused(&rt, b"fall 0 0 before");
    refused(&rt, b"lose 0");
}

#[test]
fn lines(rt: HostRuntime) {
    let mut line = Line::new();
    assert!(rt; line.is_empty());
    for _ in 0..65 {
        line.push(b' ');
    }
    assert!(rt; !line.is_empty());
    assert_eq!(rt; line.command(32), None);
    line.clear();
    assert!(rt; line.is_empty());
    for b in b"again" {
        line.push(*b);
    }
    assert!(rt; !line.is_empty());
    assert_eq!(rt; line.command(32), Some(Command::Again));
}
