/// How the copies of a group are disturbed while clients are at work.
#[derive(Clone, Copy, Debug, PartialEq, Eq)]
pub enum Disturbance {
    /// Not at all, except by the steps that the group draws itself.
    None,
    /// Copies are cut off, and are reached again.
    Cuts,
    /// The primary is cut off, another copy becomes the primary, and the old one is reached again.
    Promotions,
    /// Often the next copy is cut off, and often it is reached again and becomes the primary.
    Storm,
}
