//! A command of selection, and which one a line of an air file gives.

ghost use Rattle.std.specs.Prelude.{◌≡◌, [], ◌∷◌};
ghost use Rattle.nx_fec.specs.air_files.Scanner.{line_with};
ghost use Rattle.nx_receiver.specs.Commands.{GivesCommand, said};
ghost use Rattle.nx_copies.specs.Events as events;
ghost use Rattle.nx_receiver.specs.air_file_runs.Listen.{given_of};
ghost use Rattle.nx_copies.specs.copies.Shares.{to_one};

use nx_envelope::Letter;
use nx_fec::{Channel, LineKind};

/// A command of selection, for a station or a subject: for its letter, or for a byte that may be no
/// letter's.
#[derive(Clone, Copy, Debug, PartialEq, Eq)]
pub enum Command<L = Letter> {
    /// Refuse the station, for all its subjects.
    RefuseStation(L),
    /// Refuse the station no longer.
    AcceptStation(L),
    /// Refuse the subject, of all stations. A, B, D and L can't be refused (ITU-R M.540).
    RefuseSubject(L),
    /// Refuse the subject no longer.
    AcceptSubject(L),
}

impl Command {
    /// The command that a line gives, and to which channel, of a line that gives one.
    #[inline(always)]
    pub fn of_line(kind: LineKind) -> (Channel, Command)
        requires { GivesCommand kind }
        ensures { given_of (line_with kind [])
            ≡ to_one result.0 (events.command (said result.1) ∷ []) }
    {
        match kind {
            LineKind::RefuseStation(mark, byte) => (
                Channel::of(mark),
                Command::RefuseStation(Letter::of_capital(byte)),
            ),
            LineKind::AcceptStation(mark, byte) => (
                Channel::of(mark),
                Command::AcceptStation(Letter::of_capital(byte)),
            ),
            LineKind::RefuseSubject(mark, byte) => (
                Channel::of(mark),
                Command::RefuseSubject(Letter::of_capital(byte)),
            ),
            LineKind::AcceptSubject(mark, byte) => (
                Channel::of(mark),
                Command::AcceptSubject(Letter::of_capital(byte)),
            ),
            LineKind::Moment(_) | LineKind::Elements(_) => unreachable!(),
        }
    }
}
