// A table of places is read: questions 28 to 30.
ghost use Rattle.std.specs.Prelude.{◌≡◌, ◌<◌, length};
ghost use Rattle.places.specs.AllParents.{AllParents};
ghost use Rattle.records.specs.Refusals.{refusal_in};
ghost use Rattle.order.specs.Table.{read_table, table_refusal};
ghost use Rattle.order.specs.views.TableRead.{table_read, is_new, is_late};

use places::Parents;
use records::Refusal;

// Is it one of the 680 places, and not down yet?
fn is_new(down: &[u8; 681], p: usize) -> bool
    ensures { result ≡ is_new down.now p }
{
    if p < 680 {
        return down[p] == 0;
    }
    false
}

// Is its parent not down yet?
fn is_late(down: &[u8; 681], parents: &Parents, p: usize) -> bool
    requires { (p < 680) × AllParents parents.now }
    ensures { result ≡ is_late down.now p }
{
    down[places::parent_in(parents, p)] == 0
}

// Reads a table, and leaves its places in their order: questions 28 to 30. Not 30 for a table that has a place twice behind one
// before its parent, nor the places in ascending order, nor the place at which each number stands.
pub fn read_table(table: &[u8], places: &mut [u16; 680]) -> Result<(), Refusal>
    requires { length places.old ≡ 680 }
    ensures { table_read places.new result ≡ read_table table.now }
{
    if table.len() != 1360 {
        return Err(Refusal::TableLength);
    }
    let parents = places::all_parents();
    let mut down = [0u8; 681];
    down[680] = 1;
    let mut late = false;
    for i in 0..680 {
        let place = records::wide(table[2 * i], table[2 * i + 1]);
        let p = place as usize;
        if !is_new(&down, p) {
            return Err(Refusal::TablePlaces);
        }
        if is_late(&down, &parents, p) {
            late = true;
        }
        down[p] = 1;
        places[i] = place;
    }
    if late {
        return Err(Refusal::ParentBehind);
    }
    Ok(())
}

// Checks a table: questions 28 to 30. Not a table refused that has its arguments in another order, nor one accepted that has a
// place before the parent of its parent.
pub fn check_order(table: &[u8]) -> Result<(), Refusal>
    ensures { refusal_in result ≡ table_refusal (read_table table.now) }
{
    let mut places = [0u16; 680];
    read_table(table, &mut places)
}
