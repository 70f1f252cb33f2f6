//! The channels of an air file: the frequencies that a receiver hears at once.
ghost use Rattle.std.specs.Prelude.{◌≡◌, ◌<◌, [], ◌∷◌, IfSome, IfNone, Some};
ghost use Rattle.nx_fec.specs.air_files.AirFile.{mark_bytes};
ghost use Rattle.nx_fec.specs.air_files.Channels.{channel_number, channel_of};

/// One of the three frequencies that a receiver hears, each with its own elements and commands
/// (this profile).
#[derive(Clone, Copy, Debug, PartialEq, Eq)]
pub enum Channel {
    /// Channel 0, to which lines belong that name no channel.
    Zero,
    /// Channel 1.
    One,
    /// Channel 2.
    Two,
}

impl Channel {
    /// The channel with this number, 0 to 2; none above.
    pub fn new(number: u8) -> Option<Channel>
        ensures found { IfSome result (λ channel. channel_number channel ≡ number) }
        ensures none { IfNone result (2 < number) }
    {
        match number {
            0 => Some(Channel::Zero),
            1 => Some(Channel::One),
            2 => Some(Channel::Two),
            _ => None,
        }
    }

    /// The channel that a line names by this digit, 0 to 2; none by any other byte.
    #[inline(always)]
    pub(crate) fn of_digit(digit: u8) -> Option<Channel>
        ensures found { IfSome result (λ channel. mark_bytes (Some channel) ≡ digit ∷ []) }
    {
        match digit {
            b'0' => Some(Channel::Zero),
            b'1' => Some(Channel::One),
            b'2' => Some(Channel::Two),
            _ => None,
        }
    }

    /// The channel that a line belongs to: the one that it names, or channel 0 where it names none.
    pub fn of(mark: Option<Channel>) -> Channel
        ensures { result ≡ channel_of mark }
    {
        mark.unwrap_or(Channel::Zero)
    }

    /// Its number, 0 to 2.
    pub fn number(self) -> u8
        ensures { result ≡ channel_number self }
    {
        match self {
            Channel::Zero => 0,
            Channel::One => 1,
            Channel::Two => 2,
        }
    }
}
