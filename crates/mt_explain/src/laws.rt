ghost use Rattle.std.specs.Prelude.{◌≡◌, ◌↔◌, ℕ, List, true};
ghost use Rattle.std.specs.List.{Contains, list_any};
ghost use Rattle.mt_regs.specs.declared.registers.Register.{Register};
ghost use Rattle.mt_regs.specs.RegisterFile.{IsRegisterFile, RegisterFile};
ghost use Rattle.mt_regs.specs.Faults.{has_broken_mask, has_reserved_bit, has_unsupported_type};
ghost use Rattle.mt_explain.specs.declared.field_fault.Defect.TheVariants.{Gap, NoType, ReservedBits};
ghost use Rattle.mt_regs.specs.StartFiles.{SameKind};
ghost use Rattle.mt_explain.specs.declared.note.Note.{Note};
ghost use Rattle.mt_explain.specs.declared.rule.Rule.{Rule};
ghost use Rattle.mt_explain.specs.Clashes.{NothingIsFound};
ghost use Rattle.mt_explain.specs.Deciders.{decider_of, named_by};
ghost use Rattle.mt_explain.specs.FieldFaults.{faults_at, is_of};
ghost use Rattle.mt_explain.specs.Groups.{AreEqualAt, GroupsAreOfEqualFiles, HaveEqualRegisters, IsFirstEqual};
ghost use Rattle.mt_explain.specs.Notes.{is_note, notes};
ghost use Rattle.mt_explain.specs.Pairs.{matching_pairs};
ghost use Rattle.mt_explain.specs.Rules.{Decides};
ghost use Rattle.mt_explain.specs.TypeChanges.{changed_pages, type_shown};

/// A register has fields with reserved bits, without a type or with a gap if and only if the definitions of the first fault say so.
pub fn field_faults_are_those_of_the_definitions()
    ensures reserved { (f : RegisterFile) (r : Register) (v : ℕ) → list_any (is_of ReservedBits) (faults_at f r v) ≡ has_reserved_bit f r v }
    ensures types { (f : RegisterFile) (r : Register) (v : ℕ) → list_any (is_of NoType) (faults_at f r v) ≡ has_unsupported_type f r v }
    ensures masks { (f : RegisterFile) (r : Register) (v : ℕ) → list_any (is_of Gap) (faults_at f r v) ≡ has_broken_mask f r v }
{}

/// Nothing is found in a file if and only if it is accepted: no field at fault, and no run of pages with no defined type.
pub fn nothing_is_found_in_accepted_files()
    ensures found { NothingIsFound }
{}

/// Two files have the same first equal one if and only if they are equal. So each file is in exactly one of the groups, and two are in
/// one group if and only if they are equal.
pub fn groups_are_of_equal_files()
    ensures same { (files : List RegisterFile) (i j a b : ℕ) → IsFirstEqual files i a → IsFirstEqual files j b → (a ≡ b) ↔ AreEqualAt files i j }
    ensures grouping { GroupsAreOfEqualFiles }
{}

/// Files of one width and equal capabilities are equal if and only if their writable registers are.
pub fn files_of_equal_registers_are_equal()
    ensures equal { (f g : RegisterFile) → IsRegisterFile f → IsRegisterFile g → SameKind f g → (f ≡ g) ↔ HaveEqualRegisters f g }
{}

/// The registers that give a page its type are those that its rule names.
pub fn deciders_are_those_of_the_rule()
    ensures named { (f : RegisterFile) (page : ℕ) (rule : Rule) → Decides f page rule → decider_of f page ≡ named_by f rule (matching_pairs f page) }
{}

/// The number of pages whose types differ is 0 if and only if each page has one type in both files, or in neither.
pub fn equal_types_are_not_counted()
    ensures same { (old new : RegisterFile) → (changed_pages old new ≡ 0) ↔ ((page : ℕ) → type_shown old page ≡ type_shown new page) }
{}

/// A note is one of a file's if and only if it holds.
pub fn notes_are_those_that_hold()
    ensures listed { (f : RegisterFile) → IsRegisterFile f → (note : Note) → Contains (notes f) note ↔ (is_note f note ≡ true) }
{}
