//! Tables with several owners.

ghost use Rattle.std.specs.Prelude.{◌≡◌, IfOk};

use bg_types::Memory;
use std::alloc::Global;
use std::marker::Model;
use std::rc::Rc;
use unicode_tables::Tables;

/// A share in tables, which go with the last share. All shares of some tables stay in one thread.
pub struct SharedTables {
    tables: Rc<Tables>,
}

impl Model for SharedTables {
    ghost use Rattle.unicode_tables.specs.Tables.{TableValues};

    ghost Value = { TableValues };

    ghost view = { λ s. s.tables.value };
}

// Written out: a crate above then proves the call, and nothing of the parts.
impl Drop for SharedTables {
    fn drop(self) {
        let SharedTables { tables: _ } = self;
    }
}

impl SharedTables {
    /// The first share in these tables.
    /// Cost: O(1), memory for the count of shares.
    pub fn new(alloc: Global, tables: Tables) -> Result<SharedTables, Memory>
        ensures { IfOk result (λ shared. shared ≡ tables) }
    {
        let tables = Rc::new(alloc, tables)?;
        Ok(SharedTables { tables })
    }

    /// A further share in the same tables.
    pub fn to_rc(&self) -> Result<Rc<Tables>, Memory>
        ensures { IfOk result (λ tables. tables.value ≡ self.now) }
    {
        let tables = self.tables.clone()?;
        Ok(tables)
    }
}
