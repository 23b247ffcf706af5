ghost use Rattle.std.specs.Prelude.{◌≡◌, ◌≢◌, ◌+◌, ◌++◌, ℕ, List, [], length, Some, false, true};
ghost use Rattle.mt_kinds.specs.Bits.{is_bit_set};
ghost use Rattle.mt_ports.specs.declared.status.Status.TheVariants.{BadText, Done};
ghost use Rattle.mt_text.specs.declared.place.Place.{Place};
ghost use Rattle.mt_import.specs.declared.format.Choice.{Choice};
ghost use Rattle.mt_import.specs.declared.format.Choice.TheVariants.{Auto, Only};
ghost use Rattle.mt_import.specs.declared.format.Format.{Format};
ghost use Rattle.mt_import.specs.declared.shape.Pick.TheVariants.{Each};
ghost use Rattle.mt_import.specs.declared.shape.Reading.{Reading};
ghost use Rattle.mt_import.specs.declared.shape.Warning.{Warning};
ghost use Rattle.mt_import.specs.Import.{log_outcome, outcome_of, tables_outcome};
ghost use Rattle.mt_import.specs.Outcome.{Seen, Outcome, shows_fixed, shows_no_fix, slot_shown};
ghost use Rattle.mt_import.specs.Readings.{is_width};
ghost use Rattle.mt_import.specs.Census.{format_of};
ghost use Rattle.mt_import.specs.Shown.{is_auto, shown};
ghost use Rattle.mt_import.specs.Supplied.{Supplied, supplied_value};
ghost use Rattle.mt_import_laws.specs.Alike.{AreAlikeLogs};
ghost use Rattle.mt_import_laws.specs.Alone.{HasAlone, ReadsAll};
ghost use Rattle.mt_import_laws.specs.Assumptions.{IsNamedValue};
ghost use Rattle.mt_import_laws.specs.FirstLine.{ComeToSame, TakesMost};
ghost use Rattle.mt_import_laws.specs.Missing.{NamesMissing, NamesValues};
ghost use Rattle.mt_import_laws.specs.Notes.{AreNoted};
ghost use Rattle.mt_import_laws.specs.Origins.{Contradict, ContradictInCapabilities, ContradictsWord, CountsPair, HasOrigins, IsAmong, IsAssumed, IsRead, LogSaysFixed, WidthOrigin, readings_of, seen_of};
ghost use Rattle.mt_import_laws.specs.Returns.{DifferInReturns};
ghost use Rattle.mt_import_laws.specs.Spare.{ComeToSameWithout, HasSpareLine};
ghost use Rattle.mt_import_laws.specs.Warnings.{HasWarning, IsWarned, TellsWarnings};

/// For all logs and words: if a dump comes of them, it has a section for each processor, with the processor's values
/// and 0FEH of processor 0. Lines of one table show each value of the processor. Or else a word supplies it. Or else
/// lines show its pair as disabled, and it is 0. Or else it is a named assumption's.
pub fn values_have_origins()
    ensures { (choice : Choice) (supplied : Supplied) (text : List ℕ) → (log_outcome choice supplied text).status ≡ Done
        → HasOrigins supplied (seen_of choice text) (log_outcome choice supplied text) }
{}

/// The width of a dump is shown by a line. Or else a word supplies it. Or else it is that of the widest mask.
pub fn widths_have_origins()
    ensures { (choice : Choice) (supplied : Supplied) (text : List ℕ) (origins : HasOrigins supplied (seen_of choice text) (log_outcome choice supplied text))
        → WidthOrigin choice supplied text origins.width }
{}

/// A comment names each value that an assumption alone gives, with its register and its processor, and the width if it is assumed.
/// There are no other comments: what one names was assumed.
pub fn assumed_values_are_noted()
    ensures { (supplied : Supplied) (seen : Seen) (told : Outcome) (origins : HasOrigins supplied seen told) → AreNoted supplied seen origins.capabilities told.notes }
{}

/// At every status what lines warn of is printed on standard error: each kind once, in the order of the kinds, with the number of a
/// line that warns of it, and no other. Beside a fault it is what lines before it warn of. The texts around are the count of lines, what
/// is missing, and the fault. A line that says nothing else warns of what its words say.
pub fn warnings_are_told()
    ensures told { (choice : Choice) (supplied : Supplied) (text : List ℕ) → TellsWarnings choice supplied text }
    ensures read { (choice : Choice) (text : List ℕ) (warning : Warning) (has : HasWarning choice text warning) → IsWarned choice text warning (1 + length has.before) }
{}

/// Each register that a dump needs is named as missing if one of the processors lacks it, and no other register is.
pub fn what_is_missing_is_named()
    ensures { (supplied : Supplied) (seen : Seen) → NamesMissing supplied seen }
{}

/// The words that are tried have `VALUE` for each register that a processor would lack with all assumptions, and for no other. So if no
/// word has it, all assumptions and a width give the log a dump's registers.
pub fn what_is_tried_gives_the_others()
    ensures { (supplied : Supplied) (seen : Seen) → NamesValues supplied seen }
{}

/// Each value that an assumption gives is one of those that are named for its register.
pub fn assumed_values_are_named()
    ensures { (supplied : Supplied) (seen : Seen) (processor number value : ℕ) → IsAssumed supplied seen processor number value
        → IsNamedValue (slot_shown seen.readings processor) number value }
{}

/// What is shown of a register is shown by a line of the log, and is of the table that the last heading begins.
pub fn readings_come_from_lines()
    ensures { (choice : Choice) (text : List ℕ) (reading : Reading) → IsAmong reading (readings_of choice text) → IsRead choice text reading }
{}

/// Two lines that show a bit of one register of one processor differently are a fault.
pub fn contradictions_are_faults()
    ensures { (choice : Choice) (supplied : Supplied) (text : List ℕ) (a b : Reading) → IsAmong a (readings_of choice text) → IsAmong b (readings_of choice text)
        → Contradict a b → (log_outcome choice supplied text).status ≡ BadText }
{}

/// Two lines that show a bit of the capability register differently are a fault, of whatever processors they are.
pub fn capabilities_that_contradict_are_faults()
    ensures { (choice : Choice) (supplied : Supplied) (text : List ℕ) (a b : Reading) → IsAmong a (readings_of choice text) → IsAmong b (readings_of choice text)
        → ContradictInCapabilities a b → (log_outcome choice supplied text).status ≡ BadText }
{}

/// A line that shows a bit of a register otherwise than a word is a fault.
pub fn words_that_contradict_are_faults()
    ensures { (choice : Choice) (supplied : Supplied) (text : List ℕ) (a : Reading) → IsAmong a (readings_of choice text)
        → ContradictsWord supplied a → (log_outcome choice supplied text).status ≡ BadText }
{}

/// Two lines that show different widths are a fault.
pub fn widths_that_differ_are_faults()
    ensures { (choice : Choice) (supplied : Supplied) (text : List ℕ) (a b : ℕ) (p q : Place) → IsAmong (is_width a p) (shown (format_of choice text) text)
        → IsAmong (is_width b q) (shown (format_of choice text) text) → a ≢ b → (log_outcome choice supplied text).status ≡ BadText }
{}

/// A line that shows another width than a word is a fault.
pub fn a_width_that_contradicts_a_word_is_a_fault()
    ensures { (choice : Choice) (supplied : Supplied) (text : List ℕ) (a word : ℕ) (p : Place) → IsAmong (is_width a p) (shown (format_of choice text) text)
        → supplied.width ≡ Some word → word ≢ a → (log_outcome choice supplied text).status ≡ BadText }
{}

/// A line that shows that a fixed-range register isn't 0, and a line that shows FIX of the capability register as clear, are a fault.
pub fn fixed_ranges_without_fix_are_faults()
    ensures { (choice : Choice) (supplied : Supplied) (text : List ℕ) (a b : Reading) → IsAmong a (readings_of choice text) → IsAmong b (readings_of choice text)
        → shows_fixed a ≡ true → shows_no_fix b ≡ true → (log_outcome choice supplied text).status ≡ BadText }
{}

/// A line that shows that a fixed-range register isn't 0, beside a word that supplies 0FEH without FIX, is a fault.
pub fn a_word_without_fix_is_a_fault()
    ensures { (choice : Choice) (supplied : Supplied) (text : List ℕ) (a : Reading) (word : ℕ) → IsAmong a (readings_of choice text)
        → shows_fixed a ≡ true → supplied_value supplied 0xfe ≡ Some word → is_bit_set word 8 ≡ false → (log_outcome choice supplied text).status ≡ BadText }
{}

/// A line that calls fixed ranges enabled, and a line that calls them disabled, are a fault, whatever each shows of a register.
pub fn lines_on_fixed_ranges_agree()
    ensures { (choice : Choice) (supplied : Supplied) (text : List ℕ) → LogSaysFixed choice text true → LogSaysFixed choice text false
        → (log_outcome choice supplied text).status ≡ BadText }
{}

/// Of a dump, VCNT counts each pair that lines show as enabled: VCNT as lines show it, and as a word supplies it.
pub fn enabled_pairs_are_counted()
    ensures { (choice : Choice) (supplied : Supplied) (text : List ℕ) → (log_outcome choice supplied text).status ≡ Done → (a : Reading) → IsAmong a (readings_of choice text)
        → CountsPair supplied (readings_of choice text) a }
{}

/// Lines that match nothing may be replaced by others that match nothing: the texts and the status stay.
pub fn lines_that_match_nothing_change_nothing()
    ensures { (choice : Choice) (supplied : Supplied) (a b : List ℕ) → AreAlikeLogs choice a b → log_outcome choice supplied a ≡ log_outcome choice supplied b }
{}

/// A line that matches nothing may be left out, in any format and by `auto`, unless it takes back a call of rdmsr whose value comes
/// next: the dump, its comments and the status stay. Reasons give the lines behind it numbers that are one less, and count one line less.
pub fn lines_that_match_nothing_may_be_left_out()
    ensures { (choice : Choice) (supplied : Supplied) (longer shorter : List ℕ) (has : HasSpareLine choice longer shorter)
        → ComeToSameWithout (is_auto choice) (1 + length has.before) (log_outcome choice supplied longer) (log_outcome choice supplied shorter) }
{}

/// One CR more at the end of lines changes nothing, in any format: the texts and the status stay. Except: a line of
/// 4,096 bytes, and one that ends with a CR.
pub fn returns_change_nothing()
    ensures { (choice : Choice) (supplied : Supplied) (a b : List ℕ) → DifferInReturns a b → log_outcome choice supplied a ≡ log_outcome choice supplied b }
{}

/// For all logs: no more lines of another format than of the one that `auto` takes show registers, `plain` aside. If it takes none, no
/// line of another format shows one. `plain` is the last resort. Each line is of one format: of the first one that a line tells, if it
/// says something in it, or else of the first that it tells itself.
pub fn auto_takes_the_most()
    ensures { (text : List ℕ) → TakesMost text }
{}

/// By `auto` a log comes to the same dump, comments and status as by the format that is taken, of all its tables and of one.
pub fn auto_comes_to_that_format()
    ensures all { (format : Format) (supplied : Supplied) (text : List ℕ) → format_of Auto text ≡ Some format
        → ComeToSame (log_outcome Auto supplied text) (log_outcome (Only format) supplied text) }
    ensures tables { (format : Format) (supplied : Supplied) (text : List ℕ) → format_of Auto text ≡ Some format
        → ComeToSame (tables_outcome Auto supplied text) (tables_outcome (Only format) supplied text) }
{}

/// If a word asks for one table of a log, by its number or as the last one, the log comes to what another log comes to. This has the
/// same lines, but each line of another table is empty, so that no line has another number. Every law on logs holds of it.
pub fn a_table_is_read_alone()
    ensures { (format : Format) (supplied : Supplied) (text alone : List ℕ) → HasAlone supplied.table format text alone
        → tables_outcome (Only format) supplied text ≡ log_outcome (Only format) supplied alone }
{}

/// Without such a word all tables are read. Only behind a contradiction of a log of several tables something more is told.
pub fn all_tables_are_read_without_the_word()
    ensures { (choice : Choice) (supplied : Supplied) (text : List ℕ) → supplied.table ≡ Each → ReadsAll choice supplied text }
{}

/// Where the status isn't 0, nothing goes to standard output.
pub fn reasons_come_alone()
    ensures { (words : List (List ℕ)) (bytes : List ℕ) → (outcome_of words bytes).status ≢ Done → (outcome_of words bytes).notes ++ (outcome_of words bytes).dump ≡ [] }
{}
