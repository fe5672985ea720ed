//! Which tables a plan has, and their limits.

ghost use Rattle.std.specs.Prelude.{◌≡◌};
ghost use Rattle.plan_tables.specs.Limits.{table_name, limit_of, order_of};

/// A table of the plan that has a limit. Limits are checked in this order.
#[derive(Clone, Copy, Debug)]
pub enum Table {
    /// At most 4,096 events.
    Events,
    /// At most 16,384 bindings.
    Bindings,
    /// At most 256 switches.
    Switches,
    /// At most 256 coils.
    Coils,
    /// At most 256 variables.
    Variables,
    /// At most 1,024 rows of devices.
    Rows,
}

/// The tables, in the order in which they are judged.
pub const TABLES: [Table; 6] = [
    Table::Events,
    Table::Bindings,
    Table::Switches,
    Table::Coils,
    Table::Variables,
    Table::Rows,
];

impl Table {
    /// The name by which the table is reported.
    pub fn name(&self) -> &'static str
        ensures { result.now ≡ table_name self.now }
    {
        match self {
            Table::Events => "events",
            Table::Bindings => "bindings",
            Table::Switches => "switches",
            Table::Coils => "coils",
            Table::Variables => "variables",
            Table::Rows => "rows",
        }
    }

    /// At most so many entries.
    pub fn limit(self) -> usize
        ensures { result ≡ limit_of self }
    {
        match self {
            Table::Events => 4_096,
            Table::Bindings => 16_384,
            Table::Switches => 256,
            Table::Coils => 256,
            Table::Variables => 256,
            Table::Rows => 1_024,
        }
    }

    /// The place in [`TABLES`].
    pub fn index(self) -> usize
        ensures { result ≡ order_of self }
    {
        self as usize
    }
}
