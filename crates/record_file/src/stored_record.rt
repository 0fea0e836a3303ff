// A record that was read.
use base_types::Text;

/// A record that was read, and the offset of its gate.
#[derive(Drop)]
pub struct StoredRecord {
    pub offset: u64,
    pub body: Text,
}
