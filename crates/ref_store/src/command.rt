// Commands of a push.
use base_types::{ItemList, Text};
use git_object::ObjectId;

/// A change of a ref from one value to another; the zero id stands for no value.
#[derive(Drop)]
pub struct Command {
    pub old: ObjectId,
    pub new: ObjectId,
    pub name: Text,
}

/// The commands of a push, in order.
pub type CommandList = ItemList<Command>;
