// What each kind of row can rely on, from the contracts of the table alone.
ghost use Rattle.std.specs.Prelude.{◌≡◌, ℕ, List, drop, IfOk, Some, None, OnOk, ◌≢◌};
ghost use Rattle.tables.specs.Tables.{Sound, row_with};
ghost use Rattle.tables_demo.specs.declared.kinds.GroupKey.{GroupKey};
ghost use Rattle.tables_demo.specs.Rows.{group_rules, label_rules, meter_rules};

use crate::kinds::{Group, Label, Meter};
use fault::Fault;
use tables::Table;

// One meter goes, another comes: the new one is found, and the old one is answered.
pub(crate) fn exchange_meter(
    table: &mut Table<'_, Meter>,
    gone: u64,
    new: Meter,
) -> Result<Meter, Fault>
    ensures sound { Sound meter_rules table.old → Sound meter_rules table.new }
    ensures found { Sound meter_rules table.old → IfOk result (λ old. (row_with meter_rules table.old gone ≡ Some old) × (row_with meter_rules table.new new.code ≡ Some new)) }
{
    let old = table.remove(&gone)?;
    table.insert(new)?;
    Ok(old)
}

// A group's row is overwritten: it is found by its triple, and every other triple is found as before.
pub(crate) fn set_group(table: &mut Table<'_, Group>, row: Group) -> Result<(), Fault>
    ensures sound { Sound group_rules table.old → Sound group_rules table.new }
    ensures found { Sound group_rules table.old → OnOk result (row_with group_rules table.new row.key ≡ Some row) }
    ensures others { Sound group_rules table.old → OnOk result ((other : GroupKey) → (other ≢ row.key) → row_with group_rules table.new other ≡ row_with group_rules table.old other) }
{
    table.replace(row)?;
    Ok(())
}

// A label is taken out: it is found no more, and every other label is found as before.
pub(crate) fn drop_label(table: &mut Table<'_, Label>, text: &[u8; 16]) -> Result<(), Fault>
    ensures sound { Sound label_rules table.old → Sound label_rules table.new }
    ensures gone { Sound label_rules table.old → OnOk result (row_with label_rules table.new text.now ≡ None) }
    ensures others { Sound label_rules table.old → OnOk result ((other : List ℕ) → (other ≢ text.now) → row_with label_rules table.new other ≡ row_with label_rules table.old other) }
{
    table.remove(text)?;
    Ok(())
}

// The memory is the lender's again when the table is gone; past the one row it holds what it held.
pub(crate) fn lend_for_one(memory: &mut [Meter], row: Meter) -> Result<(), Fault>
    ensures { OnOk result (drop 1 memory.new ≡ drop 1 memory.old) }
{
    let mut table = Table::new(memory);
    table.insert(row)?;
    Ok(())
}
