// What holds of the form itself.
ghost use Rattle.std.specs.Prelude.{◌≡◌, ◌∷◌, ◌++◌, [], List, ℕ};
ghost use Rattle.record_file.specs.Records.{Holds, IsBadAt};
ghost use Rattle.record_file.specs.Reading.{GoesOnWith, HasNoRecord, IsReadTo, IsRecordAt};
ghost use Rattle.record_file.specs.Opening.{IsTooShort};

/// Laws of files of records.
pub fn hold_laws()
    // A file has one reading.
    ensures one_reading { (head file : List ℕ) (bodies others : List (List ℕ)) → Holds head bodies file → Holds head others file → bodies ≡ others }
    // A file that holds records is bad at no offset.
    ensures not_bad { (head file : List ℕ) (bodies : List (List ℕ)) (offset : ℕ) → Holds head bodies file → IsBadAt head file offset → ⊥ }
    // What a crash in the first write may leave holds no record under the right name.
    ensures torn_start { (head file : List ℕ) (bodies : List (List ℕ)) → IsTooShort head file → Holds head bodies file → bodies ≡ [] }
    // Where reading a file came to no record any more, all of it was read: any other reading that comes to a
    // record is a beginning of it, and that record is the next.
    ensures goes_on { (head file : List ℕ) (all some : List (List ℕ)) (end offset next : ℕ) (body : List ℕ) → IsReadTo head all file end → HasNoRecord file end → IsReadTo head some file offset → IsRecordAt file offset body next → GoesOnWith all some body }
{}
