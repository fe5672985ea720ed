//! The values of an entry, each by the place of its setting in the table of the section.

ghost use Rattle.std.specs.Prelude.{◌≡◌, slice_get};
ghost use Rattle.section_tables.specs.View.{entry_view, value_option_view};
ghost use Rattle.section_tables.specs.TableAnswers.{IsValueAt};

use crate::rows::{Entry, EntryRow};
use setting_values::values::Value;

impl EntryRow {
    /// The value of the setting at this place in the table.
    pub(crate) fn value(&self, place: usize) -> Option<&Value>
        ensures { IsValueAt self.now place result }
    {
        if place >= self.bare.len() {
            return None;
        }
        let mut at = self.order.len();
        while at > 0 {
            at -= 1;
            if self.order[at] == place {
                return self.written_values.get(at);
            }
        }
        self.bare.get(place)
    }
}

impl Entry {
    /// Its value of the setting at this place in the section's table: what is written, or what holds
    /// if nothing is. There is none past the end of the table.
    pub fn value(&self, place: usize) -> Option<&Value>
        ensures { value_option_view result ≡ slice_get (entry_view self.now).values place }
    {
        self.row.value(place)
    }

    /// The settings that are written, by their places in the table, in the order in which they are
    /// written.
    pub fn order(&self) -> &[usize]
        ensures { result.now ≡ self.now.row.value.order.items }
    {
        &self.row.order
    }
}
