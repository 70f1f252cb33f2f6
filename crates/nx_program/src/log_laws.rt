//! What arguments of `log` are read as.

ghost use Rattle.std.specs.Prelude.{List, [], ◌∷◌, codes, Some, true};
ghost use Rattle.clap.specs.Words.{Text};
ghost use Rattle.nx_fec.specs.declared.air_files.channel.Channel.TheVariants.{One};
ghost use Rattle.nx_log.specs.declared.damage.Damaged.TheVariants as damage;
ghost use Rattle.nx_program.specs.declared.log_arguments.ReadAs.TheVariants.{Kept as AsKept, Log as AsLog};
ghost use Rattle.nx_log.specs.declared.writing.form.Form.TheVariants as form;
ghost use Rattle.nx_program.specs.LogArguments.{all_entries, clash_report, value_report};
ghost use Rattle.nx_program.specs.Arguments.{IsRefusedByClap, LacksValue, Names};
ghost use Rattle.nx_program.specs.declared.log_arguments.Clash.TheVariants.{FromWithoutKept, JsonAndKeep, KeptAndSalvage, SinceBehindUntil};
ghost use Rattle.nx_program.specs.declared.log_arguments.LogOption.TheVariants.{From, Since, Station};
ghost use Rattle.nx_program.specs.declared.arguments.Call.TheVariants.{Log};

/// What some arguments of `log` are read as, whatever the program's name.
pub fn log_in_examples()
    ensures all { (program : Text) → Names (program ∷ codes "log" ∷ [])
        (Log all_entries form.Log (AsLog damage.Refused)) }
    ensures flags { (program : Text)
        → Names (program ∷ codes "log" ∷ codes "--json" ∷ codes "--good" ∷ [])
        (Log (record all_entries { good = true }) form.Json (AsLog damage.Refused)) }
    ensures last { (program : Text)
        → Names (program ∷ codes "log" ∷ codes "--last" ∷ [])
        (Log (record all_entries { last = true }) form.Log (AsLog damage.Refused)) }
    ensures keep { (program : Text)
        → Names (program ∷ codes "log" ∷ codes "--keep" ∷ [])
        (Log all_entries form.Kept (AsLog damage.Refused)) }
    ensures two_forms { (program : Text)
        → LacksValue (program ∷ codes "log" ∷ codes "--json" ∷ codes "--keep" ∷ [])
        (clash_report JsonAndKeep) }
    ensures kept { (program : Text)
        → Names (program ∷ codes "log" ∷ codes "--kept" ∷ [])
        (Log all_entries form.Log (AsKept 0)) }
    ensures from_a_place { (program : Text)
        → Names (program ∷ codes "log" ∷ codes "--kept" ∷ codes "--from" ∷ codes "43" ∷ [])
        (Log all_entries form.Log (AsKept 43)) }
    ensures no_salvage { (program : Text)
        → LacksValue (program ∷ codes "log" ∷ codes "--kept" ∷ codes "--salvage" ∷ [])
        (clash_report KeptAndSalvage) }
    ensures no_kept { (program : Text)
        → LacksValue (program ∷ codes "log" ∷ codes "--from" ∷ codes "43" ∷ [])
        (clash_report FromWithoutKept) }
    ensures no_place { (program : Text)
        → LacksValue (program ∷ codes "log" ∷ codes "--kept" ∷ codes "--from=+5" ∷ [])
        (value_report From (codes "+5")) }
    ensures salvage { (program : Text)
        → Names (program ∷ codes "log" ∷ codes "--salvage" ∷ [])
        (Log all_entries form.Log (AsLog damage.PassedOver)) }
    ensures channel { (program : Text) → Names (program ∷ codes "log" ∷ codes "--channel=1" ∷ [])
        (Log (record all_entries { channel = Some One }) form.Log (AsLog damage.Refused)) }
    ensures since { (program : Text)
        → Names (program ∷ codes "log" ∷ codes "--since" ∷ codes "2025-01-01" ∷ [])
        (Log (record all_entries { since = Some 1735689600 }) form.Log (AsLog damage.Refused)) }
    ensures until { (program : Text)
        → Names (program ∷ codes "log" ∷ codes "--until" ∷ codes "2025-01-01" ∷ [])
        (Log (record all_entries { until = Some 1735775999 }) form.Log (AsLog damage.Refused)) }
    ensures minute { (program : Text)
        → Names (program ∷ codes "log" ∷ codes "--until" ∷ codes "2025-01-01 00:40" ∷ [])
        (Log (record all_entries { until = Some 1735692059 }) form.Log (AsLog damage.Refused)) }
    ensures one_second { (program : Text)
        → Names (program ∷ codes "log" ∷ codes "--since=0" ∷ codes "--until=0" ∷ [])
        (Log (record all_entries { since = Some 0; until = Some 0 }) form.Log
        (AsLog damage.Refused)) }
    ensures behind { (program : Text)
        → LacksValue (program ∷ codes "log" ∷ codes "--since=2" ∷ codes "--until=1" ∷ [])
        (clash_report SinceBehindUntil) }
    ensures no_year { (program : Text)
        → LacksValue (program ∷ codes "log" ∷ codes "--since" ∷ codes "2025" ∷ [])
        (value_report Since (codes "2025")) }
    ensures no_time { (program : Text)
        → LacksValue (program ∷ codes "log" ∷ codes "--since" ∷ codes "now" ∷ [])
        (value_report Since (codes "now")) }
    ensures small_letter { (program : Text)
        → LacksValue (program ∷ codes "log" ∷ codes "--station" ∷ codes "e" ∷ [])
        (value_report Station (codes "e")) }
    ensures flag_twice { (program : Text)
        → IsRefusedByClap (program ∷ codes "log" ∷ codes "--good" ∷ codes "--good" ∷ []) }
    ensures option_twice { (program : Text) → IsRefusedByClap
        (program ∷ codes "log" ∷ codes "--channel=1" ∷ codes "--channel=1" ∷ []) }
{}
