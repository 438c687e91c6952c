//! Laws of the records of texts, over the definitions alone.
ghost use Rattle.std.specs.Prelude.{◌≡◌, ◌↔◌, ◌⊎◌, List, ℕ};
ghost use Rattle.dc_text.specs.Lines.{lines_of};
ghost use Rattle.dc_text.specs.Maps.{AreDistinct, Texts};
ghost use Rattle.dc_item.specs.After.{after, after_none, asked, TakesAllOwners};
ghost use Rattle.dc_item.specs.Item.{ItemParts};
ghost use Rattle.dc_item.specs.Printed.{table_text};
ghost use Rattle.dc_item.specs.Records.{Reads, IsBad, HasReading};
ghost use Rattle.dc_item.specs.Table.{names_of, table_of, IsTable, ReadsTable};
ghost use Rattle.dc_item.specs.declared.entry.Entry.{Entry};
ghost use Rattle.dc_item.specs.declared.op.Op.{Op};
ghost use Rattle.dc_item.specs.declared.op.Op.TheVariants.{Put};
ghost use Rattle.dc_item.specs.declared.op.After.TheVariants.{Same, Changed, Gone};

/// A text has one reading or one first bad line, and not both.
pub fn one_answer()
    ensures one_reading { (text : List ℕ) (a b : List Entry) → Reads text a → Reads text b → a ≡ b }
    ensures one_fault { (text : List ℕ) (j k : ℕ) → IsBad text j → IsBad text k → j ≡ k }
    ensures not_both { (text : List ℕ) (k : ℕ) → HasReading (lines_of text) → IsBad text k → ⊥ }
    ensures some { (text : List ℕ) → HasReading (lines_of text) ⊎ ((k : ℕ) × IsBad text k) }
{}

/// The records of a text are a table: no two have one name, and names, keys and values are such that a table keeps.
pub fn records_are_a_table()
    ensures names { (text : List ℕ) (records : List Entry) → Reads text records → AreDistinct (names_of records) }
    ensures table { (text : List ℕ) (records : List Entry) → Reads text records → IsTable (table_of records) }
{}

/// An operation makes `Same` exactly where the item that it asks for is the item that is there, `Gone` exactly where it
/// takes away all owners, of which there are some, and else the item that it asks for. Where there is no item, only `Put`
/// makes one.
pub fn operations_meet_their_table()
    ensures same { (op : Op) (parts : ItemParts) → (after op parts ≡ Same) ↔ (asked op parts ≡ parts) }
    ensures gone { (op : Op) (parts : ItemParts) → (after op parts ≡ Gone) ↔ TakesAllOwners op parts }
    ensures changed { (op : Op) (parts item : ItemParts) → after op parts ≡ Changed item → item ≡ asked op parts }
    ensures none { (op : Op) → (after_none op ≡ Same) ⊎ ((item : ItemParts) × (op ≡ Put item) × (after_none op ≡ Changed item)) }
{}

/// The printed text of a table is read as its records, in byte order of their names.
pub fn printed_tables_are_read()
    ensures { (table : Texts ItemParts) → IsTable table → ReadsTable (table_text table) table }
{}
