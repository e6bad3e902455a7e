//! A look-up by name.

ghost use Rattle.std.specs.Prelude.{◌≡◌, map};
ghost use Rattle.sv8_statements.specs.Table.{look_up, view};

/// A name and what it stands for.
#[derive(Clone, Copy)]
pub struct Entry<T> {
    pub name: &'static [u8],
    pub value: T,
}

/// The value of the first entry of that name.
pub fn find_named<T: Copy>(entries: &[Entry<T>], name: &[u8]) -> Option<T>
    ensures { result ≡ look_up (map view entries.now) name.now }
{
    for entry in entries {
        if entry.name == name {
            return Some(entry.value);
        }
    }
    None
}
