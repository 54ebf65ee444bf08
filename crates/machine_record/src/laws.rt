//! Laws of records, each the contract of a function that does nothing.

ghost use Rattle.std.specs.Prelude.{◌≡◌, ℕ, List, Ok, Some, true, slice_set};
ghost use Rattle.script_lines.specs.declared.line.Line.{Line};
ghost use Rattle.machine_record.specs.declared.action.Action.{Action};
ghost use Rattle.machine_record.specs.Action.{action_number, action_of, is_narrow};
ghost use Rattle.machine_record.specs.Bytes.{record_bytes};
ghost use Rattle.machine_record.specs.Changes.{AreNoRecord, IsOtherByte, IsSealedRecord};
ghost use Rattle.machine_record.specs.Reading.{record_in_bytes};
ghost use Rattle.machine_record.specs.Recording.{Recording};
ghost use Rattle.machine_record.specs.Row.{line_of_row, row_of_line};
ghost use Rattle.machine_record.specs.Widths.{HasFewLoads, HasWidths};
ghost use Rattle.machine_record.specs.Calls.{IsRestored};
ghost use Rattle.machine_record.specs.Machine.{AreAlikeMachines, Recorded};

/// The bytes of a record are read back as the record.
pub fn bytes_are_read_back()
    ensures { (r : Recording) → HasWidths r → record_in_bytes (record_bytes r) ≡ Ok r }
{}

/// The number of an action is read back as the action.
pub fn numbers_are_read_back()
    ensures { (a : Action) → is_narrow a ≡ true → action_of (action_number a) ≡ Some a }
{}

/// The row of a line is read back as the line.
pub fn rows_are_read_back()
    ensures { (p : ℕ) (line : Line) → HasFewLoads line
        → line_of_row (row_of_line p line) ≡ Some line }
{}

/// Bytes make one machine: all that are restored from them are in one state, with one record.
pub fn bytes_make_one_machine()
    ensures { (bs : List ℕ) (v w : Recorded) → IsRestored bs v → IsRestored bs w → AreAlikeMachines v w }
{}

/// Bytes of a record with its checksum, of which one is changed, are no record's.
pub fn one_changed_byte_is_found()
    ensures { (bs : List ℕ) (at byte : ℕ) → IsSealedRecord bs → IsOtherByte bs at byte
        → AreNoRecord (slice_set bs at byte) }
{}
