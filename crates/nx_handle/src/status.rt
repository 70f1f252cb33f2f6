//! What a call tells its caller.

ghost use Rattle.std.specs.Prelude.{◌≡◌, ◌≢◌, MatchOption};
ghost use Rattle.nx_handle.specs.Status.{number_of};
ghost use Rattle.nx_handle.specs.declared.status.Status.{Status as TheStatus};

/// How a call ended. `enum nx_status` of `navtex.h` has the same numbers.
#[derive(Clone, Copy, Debug, Drop, PartialEq, Eq)]
pub enum Status {
    /// All succeeded, and the caller's room held all that was written.
    Done = 0,
    /// All succeeded, but what was written is longer than the caller's room for it.
    NoRoom = 1,
    /// A read failed: of calls over whole files alone.
    Read = 2,
    /// There was no memory for what is written: of calls over whole files alone.
    Write = 3,
    /// There was no memory for the run, or for the block of a receiver.
    Memory = 4,
    /// There is a byte past the limit of a file.
    FileTooLong = 5,
    /// There is a byte past the limit of an air file.
    AirTooLong = 6,
    /// The line has a 515th byte before its end.
    LineLong = 7,
    /// The file ends inside the line.
    LineCut = 8,
    /// The line is not understood.
    BadLine = 9,
    /// The line has elements, and no line before it is a moment.
    NoMoment = 10,
    /// The moment of the line is out of range.
    MomentRange = 11,
    /// The moment of the line is before the last one.
    MomentBack = 12,
    /// The line refuses a subject that can't be refused.
    Vital = 13,
    /// The line of the state can't stand there.
    StateLine = 14,
    /// The state ends before the end of the line.
    StateCut = 15,
    /// All succeeded and the log was given, but the new state is longer than the caller's room.
    StateNoRoom = 16,
    /// The elements are no whole words.
    Ragged = 17,
    /// The character has no signal.
    NoSuchCharacter = 18,
    /// A line of the message is too long.
    LongLine = 19,
    /// A character of the message has no signal.
    BadCharacter = 20,
    /// A line of the message has a reserved word.
    Reserved = 21,
    /// The message is too long.
    LongText = 22,
    /// The file ends inside the message.
    Open = 23,
    /// There is no message.
    NoMessages = 24,
    /// The message is of another station than the first one.
    MixedStations = 25,
    /// The station has no slot.
    NoSlot = 26,
    /// The messages have more positions than a slot has room for.
    SlotFull = 27,
    /// The byte names no station.
    NoStation = 28,
    /// The word has the wrong weight.
    WrongWord = 29,
    /// The two words of the position are no pair.
    Unpaired = 30,
    /// The words are no emission of this profile.
    BadEnvelope = 31,
    /// The receiver is closed, or its end has begun.
    Closed = 32,
    /// The receiver is open already.
    AlreadyOpen = 33,
    /// The number is that of no channel.
    NoChannel = 34,
    /// A byte is none of an element.
    NoElement = 35,
    /// The byte names no subject.
    NoSubject = 36,
    /// The bytes begin with no entry.
    NoEntry = 37,
    /// More families are asked for than a receiver can hold: of a receiver with a heap alone.
    TooManyFamilies = 38,
}

/// All statuses, each at the place of its number.
const STATUSES: [Status; 39] = [
    Status::Done,
    Status::NoRoom,
    Status::Read,
    Status::Write,
    Status::Memory,
    Status::FileTooLong,
    Status::AirTooLong,
    Status::LineLong,
    Status::LineCut,
    Status::BadLine,
    Status::NoMoment,
    Status::MomentRange,
    Status::MomentBack,
    Status::Vital,
    Status::StateLine,
    Status::StateCut,
    Status::StateNoRoom,
    Status::Ragged,
    Status::NoSuchCharacter,
    Status::LongLine,
    Status::BadCharacter,
    Status::Reserved,
    Status::LongText,
    Status::Open,
    Status::NoMessages,
    Status::MixedStations,
    Status::NoSlot,
    Status::SlotFull,
    Status::NoStation,
    Status::WrongWord,
    Status::Unpaired,
    Status::BadEnvelope,
    Status::Closed,
    Status::AlreadyOpen,
    Status::NoChannel,
    Status::NoElement,
    Status::NoSubject,
    Status::NoEntry,
    Status::TooManyFamilies,
];

impl Status {
    /// The status of a number, as a call answers it; `None` where no status has the number.
    pub fn of_number(number: u32) -> Option<Status>
        ensures { MatchOption result ((status : TheStatus) → number_of status ≢ number)
            (λ status. number_of status ≡ number) }
    {
        STATUSES.get(number as usize).copied()
    }

    /// The number of a status.
    pub fn number(self) -> u32
        ensures { result ≡ number_of self }
    {
        self as u32
    }
}
