// What a push asks for.
use git_object::ObjectList;
use ref_store::CommandList;

/// What a push asks for.
#[derive(Drop)]
pub struct PushRequest {
    /// The objects that it brings, in the order of its pack.
    pub pack: ObjectList,
    pub commands: CommandList,
    /// Whether its commands are done together or not at all.
    pub atomic: bool,
}
