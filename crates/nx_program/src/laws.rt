//! Laws over the definitions of the program alone.

ghost use Rattle.std.specs.Prelude.{◌≡◌, ◌⊎◌, ◌≤◌, ℕ, List, [], ◌∷◌, codes};
ghost use Rattle.clap.specs.Words.{Text};
ghost use Rattle.nx_envelope.specs.declared.letter.Letter.{Letter};
ghost use Rattle.nx_program.specs.Arguments.{AsksForHelp, AsksForVersion, IsRefused, IsRefusedByClap};
ghost use Rattle.nx_program.specs.Arguments.{LacksKind, LacksMoment, LacksStation, Names, as_read, moment_report};
ghost use Rattle.nx_program.specs.declared.arguments.Call.{Call};
ghost use Rattle.nx_program.specs.declared.arguments.Call.TheVariants.{Check, Code, Decode, Encode, Listen, Show};
ghost use Rattle.nx_program.specs.declared.arguments.Sendings.{Sendings};
ghost use Rattle.nx_program.specs.declared.arguments.Sendings.TheVariants.{Alone, Together};
ghost use Rattle.nx_program.specs.declared.arguments.Call.TheVariants.{Damage, Locks, Resume, Save, Send, Slots, Watch};
ghost use Rattle.nx_station.specs.declared.damaging.DamageKind.{DamageKind};
ghost use Rattle.nx_station.specs.declared.damaging.DamageKind.TheVariants.{All, Dx};

/// How the arguments are read: each list of arguments names one call, asks for help, asks for the
/// version or is refused, and these exclude each other.
pub fn arguments_read_as_one()
    ensures some { (arguments : List Text) → ((call : Call) × Names arguments call)
        ⊎ (AsksForHelp arguments ⊎ (AsksForVersion arguments ⊎ IsRefused arguments)) }
    ensures one_call { (arguments : List Text) (a b : Call) → Names arguments a → Names arguments b
        → a ≡ b }
    ensures named_not_help { (arguments : List Text) (call : Call)
        → Names arguments call → ¬ AsksForHelp arguments }
    ensures named_not_version { (arguments : List Text) (call : Call)
        → Names arguments call → ¬ AsksForVersion arguments }
    ensures named_not_refused { (arguments : List Text) (call : Call)
        → Names arguments call → ¬ IsRefused arguments }
    ensures help_not_version { (arguments : List Text) → AsksForHelp arguments
        → ¬ AsksForVersion arguments }
    ensures help_not_refused { (arguments : List Text) → AsksForHelp arguments
        → ¬ IsRefused arguments }
    ensures version_not_refused { (arguments : List Text) → AsksForVersion arguments
        → ¬ IsRefused arguments }
{}

/// What some arguments are read as, whatever the program's name.
pub fn arguments_in_examples()
    ensures decode { (program : Text) → Names (program ∷ codes "decode" ∷ []) Decode }
    ensures encode { (program : Text) → Names (program ∷ codes "encode" ∷ []) Encode }
    ensures code { (program : Text) → Names (program ∷ codes "code" ∷ []) Code }
    ensures show { (program : Text) → Names (program ∷ codes "show" ∷ []) Show }
    ensures check { (program : Text) → Names (program ∷ codes "check" ∷ []) Check }
    ensures listen { (program : Text) → Names (program ∷ codes "listen" ∷ []) (Listen Alone) }
    ensures combine { (program : Text)
        → Names (program ∷ codes "listen" ∷ codes "--combine" ∷ []) (Listen Together) }
    ensures resume { (program : Text) → Names (program ∷ codes "resume" ∷ []) Resume }
    ensures save { (program : Text) → Names (program ∷ codes "save" ∷ []) Save }
    ensures locks { (program : Text) → Names (program ∷ codes "locks" ∷ []) Locks }
    ensures help { (program : Text) → AsksForHelp (program ∷ codes "--help" ∷ []) }
    ensures short_help { (program : Text) → AsksForHelp (program ∷ codes "-h" ∷ []) }
    ensures help_of_call { (program : Text)
        → AsksForHelp (program ∷ codes "decode" ∷ codes "--help" ∷ []) }
    ensures version { (program : Text) → AsksForVersion (program ∷ codes "--version" ∷ []) }
    ensures short_version { (program : Text) → AsksForVersion (program ∷ codes "-V" ∷ []) }
    ensures version_first { (program : Text)
        → AsksForVersion (program ∷ codes "--version" ∷ codes "decode" ∷ []) }
    ensures version_of_call { (program : Text)
        → IsRefused (program ∷ codes "decode" ∷ codes "--version" ∷ []) }
    ensures unknown { (program : Text) → IsRefused (program ∷ codes "frob" ∷ []) }
    ensures none { (program : Text) → IsRefused (program ∷ []) }
    ensures surplus { (program : Text) → IsRefused (program ∷ codes "decode" ∷ codes "frob" ∷ []) }
    ensures twice { (program : Text) → IsRefused (program ∷ codes "decode" ∷ codes "decode" ∷ []) }
    ensures option { (program : Text) → IsRefused (program ∷ codes "decode" ∷ codes "--frob" ∷ []) }
    ensures help_command { (program : Text) → AsksForHelp (as_read (program ∷ codes "help" ∷ [])) }
    ensures help_twice { (program : Text)
        → AsksForHelp (as_read (program ∷ codes "help" ∷ codes "help" ∷ [])) }
    ensures help_of_command { (program : Text) (rest : List Text)
        → as_read (program ∷ codes "help" ∷ codes "listen" ∷ rest)
        ≡ program ∷ codes "listen" ∷ codes "--help" ∷ [] }
    ensures read_as_they_stand { (program : Text) (rest : List Text)
        → as_read (program ∷ codes "listen" ∷ rest) ≡ program ∷ codes "listen" ∷ rest }
{}

/// The numbers that arguments name are in their ranges.
pub fn numbers_are_in_range()
    ensures send { (arguments : List Text) (station : Letter) (moment : ℕ)
        → Names arguments (Send station moment) → moment ≤ 32503679999 }
    ensures slots { (arguments : List Text) (station : Letter) (moment : ℕ)
        → Names arguments (Slots station moment) → moment ≤ 32503679999 }
    ensures watch { (arguments : List Text) (sendings : Sendings) (name : Text) (moment : ℕ)
        → Names arguments (Watch sendings name moment) → moment ≤ 32503679999 }
    ensures from { (arguments : List Text) (kind : DamageKind) (from count : ℕ)
        → Names arguments (Damage kind from count) → from ≤ 4294967295 }
    ensures count { (arguments : List Text) (kind : DamageKind) (from count : ℕ)
        → Names arguments (Damage kind from count) → count ≤ 4294967295 }
{}

/// What arguments with a station and a moment are read as, whatever the program's name.
pub fn slots_in_examples()
    ensures send { (program : Text) (station : Letter) → station.byte ≡ 69
        → Names (program ∷ codes "send" ∷ codes "E" ∷ codes "1735689600" ∷ [])
        (Send station 1735689600) }
    ensures slots { (program : Text) (station : Letter) → station.byte ≡ 69
        → Names (program ∷ codes "slots" ∷ codes "E" ∷ codes "0" ∷ []) (Slots station 0) }
    ensures small_letter { (program : Text)
        → LacksStation (program ∷ codes "send" ∷ codes "e" ∷ codes "0" ∷ []) }
    ensures two_letters { (program : Text)
        → LacksStation (program ∷ codes "slots" ∷ codes "EA" ∷ codes "0" ∷ []) }
    ensures too_late { (program : Text)
        → LacksMoment (program ∷ codes "send" ∷ codes "E" ∷ codes "32503680000" ∷ [])
        (moment_report (codes "32503680000")) }
    ensures no_moment { (program : Text) → IsRefused (program ∷ codes "send" ∷ codes "E" ∷ []) }
    ensures no_number { (program : Text)
        → LacksMoment (program ∷ codes "slots" ∷ codes "E" ∷ codes "now" ∷ [])
        (moment_report (codes "now")) }
{}

/// What arguments with a file and a moment are read as, whatever the program's name.
pub fn watch_in_examples()
    ensures some { (program : Text)
        → Names (program ∷ codes "watch" ∷ codes "x.log" ∷ codes "1735692000" ∷ [])
        (Watch Alone (codes "x.log") 1735692000) }
    ensures combine { (program : Text)
        → Names (program ∷ codes "watch" ∷ codes "--combine" ∷ codes "x.log" ∷ codes "1735692000"
        ∷ []) (Watch Together (codes "x.log") 1735692000) }
    ensures too_late { (program : Text)
        → LacksMoment (program ∷ codes "watch" ∷ codes "x.log" ∷ codes "32503680000" ∷ [])
        (moment_report (codes "32503680000")) }
    ensures no_moment { (program : Text)
        → IsRefused (program ∷ codes "watch" ∷ codes "x.log" ∷ []) }
    ensures option_alone { (program : Text)
        → IsRefused (program ∷ codes "watch" ∷ codes "--x" ∷ codes "0" ∷ []) }
{}

/// What arguments with a kind of damage and two numbers are read as, whatever the program's name.
pub fn damage_in_examples()
    ensures some { (program : Text)
        → Names (program ∷ codes "damage" ∷ codes "dx" ∷ codes "144" ∷ codes "59" ∷ [])
        (Damage Dx 144 59) }
    ensures widest { (program : Text)
        → Names (program ∷ codes "damage" ∷ codes "all" ∷ codes "0" ∷ codes "4294967295" ∷ [])
        (Damage All 0 4294967295) }
    ensures capitals { (program : Text)
        → LacksKind (program ∷ codes "damage" ∷ codes "DX" ∷ codes "0" ∷ codes "1" ∷ []) }
    ensures too_many { (program : Text) → IsRefusedByClap
        (program ∷ codes "damage" ∷ codes "tx" ∷ codes "0" ∷ codes "4294967296" ∷ []) }
    ensures no_count { (program : Text)
        → IsRefused (program ∷ codes "damage" ∷ codes "rx" ∷ codes "0" ∷ []) }
{}
