//! Rows of a table under one hash, counted, refused for want of memory, and taken out.
ghost use Rattle.std.specs.Prelude.{◌≡◌};
ghost use Rattle.node_table.specs.Table.{empty_table};

use node_table::Table;
use trie_depth::{Memory, Same};

#[derive(Debug, Drop)]
struct Name(u32);

impl Same for Name {
    fn same(&self, other: &Self) -> bool {
        self.0 == other.0
    }
}

#[test]
fn different_nodes_under_one_hash(rt: HostRuntime) -> Result<(), (Name, Memory)> {
    let mut table = Table::new(rt.alloc());
    let first = table.add(Name(1), 0)?;
    let second = table.add(Name(2), 0)?;
    let found = [(1, 0), (2, 0), (3, 0), (1, 1)].map(|(name, hash)| table.find_equal(
        &Name(name),
        hash,
    ));
    assert_eq!(rt; found, [Some(first), Some(second), None, None]);
    let removed = table.remove(first).0;
    let left = (table.len(), table.count(second), table.node(second).0);
    assert_eq!(rt; (removed, left), (1, (1, 1, 2)));
    let found = (
        table.find_equal(&Name(1), 0),
        table.find_equal(&Name(2), 0),
        table.next_row(0),
    );
    assert_eq!(rt; found, (None, Some(second), Some(second)));
    Ok(())
}

#[test]
fn counts(rt: HostRuntime) -> Result<(), (Name, Memory)> {
    let mut table = Table::new(rt.alloc());
    let row = table.add(Name(1), 7)?;
    table.bump(row);
    let more = table.count(row);
    table.lower(row);
    assert_eq!(rt; (more, table.count(row)), (2, 1));
    Ok(())
}

/// Adds rows with the nodes below `rows`, five under each hash. A row that is refused is added again.
fn fill(table: &mut Table<Name>, rows: u32) -> Result<bool, (Name, Memory)>
    requires { table.old ≡ empty_table }
{
    let mut refused = false;
    for n in 0..rows {
        let hash = u64::from(n / 5);
        match table.add(Name(n), hash) {
            Ok(_) => {}
            Err((name, Memory)) => {
                refused = true;
                table.add(name, hash)?;
            }
        }
    }
    Ok(refused)
}

/// It passes whichever allocation is refused.
#[test]
fn a_refused_add_is_made_again(rt: HostRuntime) -> Result<(), (Name, Memory)> {
    let mut table = Table::new(rt.alloc());
    let _ = fill(&mut table, 40)?;
    assert_eq!(rt; table.len(), 40);
    for n in 0..40u32 {
        let row = table.find_equal(&Name(n), u64::from(n / 5));
        assert!(rt; row.is_some(), "no row for {n}");
    }
    Ok(())
}

/// A place is passed over and keeps its number until it is filled again or given up.
#[test]
fn a_row_taken_out(rt: HostRuntime) -> Result<(), (Name, Memory)> {
    let mut table = Table::new(rt.alloc());
    let first = table.add(Name(1), 0)?;
    let (node, spot) = table.take_out(first);
    let away = (
        node.0,
        table.len(),
        table.find_equal(&Name(1), 0),
        table.next_row(0),
    );
    table.put_back(spot, Name(2));
    let back = (table.len(), table.find_equal(&Name(2), 0));
    assert_eq!(rt; (away, back), ((1, 0, None, None), (1, Some(first))));
    Ok(())
}
