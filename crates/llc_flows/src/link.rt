//! The flow of a link at one side.
#![tactic(auto)]

ghost use Rattle.std.specs.Prelude.{◌≡◌, ◌==◌, if◌then◌else◌};
ghost use Rattle.pipe_model.specs.Flows.{flow_slot, is_first_contact, is_adding, lost_link, resends_add};
ghost use Rattle.llc_flows.specs.Views.{link_of, request_of};

/// How far the setting up of a link has come. `slot` is that of the new link, and `on` that of the
/// link that carries the open request.
#[derive(Clone, Copy, Debug, PartialEq, Eq)]
pub enum Link {
    /// No link is being set up.
    NoFlow,
    /// The group's first link waits for its confirmation.
    FirstContact,
    /// The server has sent ADD LINK.
    AddSent { slot: u8, on: u8 },
    /// The server has sent its keys in ADD LINK CONTINUATION.
    KeysSent { slot: u8, on: u8 },
    /// The server has sent CONFIRM LINK on the new link.
    LinkSent { slot: u8 },
    /// The server has lost the new link, and its request is still open.
    Abandoned { on: u8 },
    /// The client has accepted an ADD LINK.
    AddSeen { slot: u8 },
}

/// The open request of an ADD LINK flow, with the new link's slot.
#[derive(Clone, Copy, Debug, PartialEq, Eq)]
pub enum AddRequest {
    /// ADD LINK.
    Link { slot: u8 },
    /// ADD LINK CONTINUATION, with the server's keys.
    Keys { slot: u8 },
}

/// The slot that the flow is for, 0 where it is for none.
pub fn slot_of(link: Link) -> u8
    ensures { result ≡ flow_slot (link_of link) }
{
    match link {
        Link::AddSent { slot, .. }
        | Link::KeysSent { slot, .. }
        | Link::LinkSent { slot }
        | Link::AddSeen { slot } => slot,
        Link::NoFlow | Link::FirstContact | Link::Abandoned { .. } => 0,
    }
}

/// Whether the group is in first contact.
pub fn is_first_contact(link: Link) -> bool
    ensures { result ≡ is_first_contact (link_of link) }
{
    match link {
        Link::FirstContact => true,
        _ => false,
    }
}

/// Whether a link is being added.
pub fn is_adding(link: Link) -> bool
    ensures { result ≡ is_adding (link_of link) }
{
    match link {
        Link::NoFlow | Link::FirstContact => false,
        _ => true,
    }
}

/// The request that is open, where it is still wanted.
pub fn request_of(link: Link) -> Option<AddRequest>
    ensures { result ≡ request_of (link_of link) }
{
    match link {
        Link::AddSent { slot, .. } => Some(AddRequest::Link { slot }),
        Link::KeysSent { slot, .. } => Some(AddRequest::Keys { slot }),
        _ => None,
    }
}

/// Whether the open request is posted again as the link of slot `lost` is.
pub fn resends(link: Link, lost: u8) -> bool
    ensures { result ≡ resends_add lost (link_of link) }
{
    match link {
        Link::AddSent { slot, on } | Link::KeysSent { slot, on } => slot != lost && on == lost,
        _ => false,
    }
}

/// The slot of the link that carries a request once the link of slot `lost` is gone.
pub fn moved(on: u8, lost: u8, carrier: u8) -> u8
    ensures { result ≡ (if on == lost then carrier else on) }
{
    if on == lost { carrier } else { on }
}

/// The flow once the link of slot `lost` is gone, where the lowest live link is that of `carrier`.
pub fn after_loss(link: Link, lost: u8, carrier: u8) -> Link
    ensures { link_of result ≡ lost_link lost carrier (link_of link) }
{
    match link {
        Link::AddSent { slot, on } if slot == lost => Link::Abandoned { on },
        Link::AddSent { slot, on } => Link::AddSent {
            slot,
            on: moved(on, lost, carrier),
        },
        Link::KeysSent { slot, on } if slot == lost => Link::Abandoned { on },
        Link::KeysSent { slot, on } => Link::KeysSent {
            slot,
            on: moved(on, lost, carrier),
        },
        Link::LinkSent { slot } | Link::AddSeen { slot } if slot == lost => Link::NoFlow,
        Link::Abandoned { on } if on == lost => Link::NoFlow,
        _ => link,
    }
}
