// How the programs read their input and write their answer: whole, or it is said that they could not.
#![tactic(auto)]

ghost use Rattle.std.specs.Prelude.{◌≡◌, ◌<◌, ◌≤◌, length, take, IfOk};
ghost use Rattle.std.specs.Io.{ReadsAtMost};
ghost use Rattle.std.specs.Io.KnownBytes.{Consumes, IsAtEnd};

use std::io;
use std::io::{ErrorKind, Read};
use std::process::ExitCode;

// Reads until the buffer is full or the input ends, and answers how many bytes it put at the start of the buffer.
pub fn fill<R: Read>(from: &mut R, buf: &mut [u8]) -> io::Result<usize>
    ensures within { ReadsAtMost result buf.new }
    ensures bytes { IfOk result (λ n. Consumes (R.remaining from.old) (R.remaining from.new) (take n buf.new)) }
    ensures whole { IfOk result (λ n. n < length buf.new → IsAtEnd (R.remaining from.new)) }
{
    let mut done = 0;
    for _ in 0..u64::MAX {
        if done >= buf.len() {
            return Ok(done);
        }
        match from.read(&mut buf[done..]) {
            Ok(0) => return Ok(done),
            Ok(n) => done += n,
            Err(e) => {
                if e.kind() != ErrorKind::Interrupted {
                    return Err(e);
                }
            }
        }
    }
    Err(io::Error::from(ErrorKind::TimedOut))
}

// What a program ends with whose reader has gone: what a shell says of one that the signal SIGPIPE ended.
const UNREAD: u8 = 141;

// Writes to standard output. Where that does not take all of it, standard error says so; of a reader that has gone it says nothing.
pub fn write_or_say<R: Print + Eprint>(
    rt: &R,
    program: &str,
    bytes: &[u8],
) -> io::Result<ExitCode> {
    match rt.write_all(bytes) {
        Ok(()) => Ok(ExitCode::SUCCESS),
        Err(e) => {
            if e.kind() == ErrorKind::BrokenPipe {
                return Ok(ExitCode::from(UNREAD));
            }
            eprintln!(rt; "{program}: cannot write to standard output")?;
            Ok(ExitCode::SUCCESS)
        }
    }
}

#[cfg(test)]
mod tests {
    use super::*;

    // Gives 0, is interrupted, gives 2, and fails from then on.
    #[derive(Drop)]
    struct Faulty {
        turn: u8,
    }

    impl Read for Faulty {
        fn read(&mut self, buf: &mut [u8]) -> io::Result<usize> {
            let turn = self.turn;
            if turn > 2 {
                return Err(io::Error::from(ErrorKind::PermissionDenied));
            }
            self.turn = turn + 1;
            if turn == 1 {
                return Err(io::Error::from(ErrorKind::Interrupted));
            }
            if buf.len() == 0 {
                return Ok(0);
            }
            buf[0] = turn;
            Ok(1)
        }
    }

    // What is interrupted is read on; what fails is told.
    #[test]
    fn reads_on_or_fails(rt: HostRuntime) {
        let mut two = [7u8; 2];
        let mut source = Faulty { turn: 0 };
        match fill(&mut source, &mut two) {
            Ok(n) => assert_eq!(rt; n, 2),
            Err(_) => panic!(rt; "two bytes are there"),
        }
        assert_eq!(rt; two[0], 0);
        assert_eq!(rt; two[1], 2);
        let mut three = [7u8; 3];
        let mut again = Faulty { turn: 0 };
        match fill(&mut again, &mut three) {
            Ok(_) => panic!(rt; "the third fails"),
            Err(e) => assert!(rt; e.kind() == ErrorKind::PermissionDenied, "another error"),
        }
    }

    // An input that ends early fills less.
    #[test]
    fn ends_early(rt: HostRuntime) {
        let mut source = &b"ab"[..];
        let mut three = [7u8; 3];
        match fill(&mut source, &mut three) {
            Ok(n) => assert_eq!(rt; n, 2),
            Err(_) => panic!(rt; "memory is read"),
        }
        assert_eq!(rt; three[1], b'b');
        assert_eq!(rt; three[2], 7);
    }
}
