//! Two peers and the link between them: the world in which a scene happens.
//!
//! [`World::step`] is the one way in which anything changes. It appends one entry: this actor, this
//! event, and the reply and the posts that the definitions give after the history before it. A step is
//! refused only where the room is spent, and changes nothing then. All memory is taken by [`World::new`].
//!
//! Each peer is a host: its manager, its posts on the link, and its half of each TCP connection. The type
//! of a world keeps that both hosts stand for the history, so its history is a lawful one. Beside it
//! stand laws of all such histories, each a function with nothing to do, whose contract is the law.
#![tactic(auto)]

mod byte_laws;
mod calls;
mod events;
mod handshake;
mod host;
mod lawful_laws;
mod laws;
mod link;
mod lists;
mod moment;
mod one_link_laws;
mod settings;
mod stream_laws;
mod wires;
mod world;
mod world_laws;

pub use byte_laws::{
    a_buffer_is_the_rmb, the_bytes_of_an_end_reach, told_bytes_stand_in_the_element,
};
pub use lawful_laws::{
    a_lack_is_named_only_where_it_holds, a_played_history_is_lawful, each_write_lands_home,
    each_write_under_way_is_directed, no_element_is_lent_again_too_early, no_end_is_reset,
    no_key_is_bound_again_too_early, what_is_heard_are_the_bytes_of_the_answers,
};
pub use laws::{
    a_lending_is_where_an_offer_is, a_token_names_an_offer,
    an_end_of_a_pipe_is_up_where_the_end_is, an_end_that_is_not_up_posts_nothing,
    an_end_that_is_up_has_offers, an_end_that_is_up_knows_the_key, an_offered_element_stays_lent,
    ends_are_at_the_step_of_their_socket, lendings_are_apart, lendings_are_few, no_group_ends,
    no_message_waits_for_an_end_that_is_up, nothing_is_cut, offers_are_on_the_one_link,
    the_link_and_the_sockets_are_somewhere, the_link_is_not_dead, tokens_tell_sockets_apart,
};
pub use one_link_laws::{
    an_entry_gives_deeds_and_fates, no_end_closes, no_lending_was_ever_over, no_message_is_dropped,
    offers_differ_in_their_tokens, own_messages_are_those_under_the_token,
    posts_on_a_wire_stand_in_the_history, the_link_fits_the_elements, the_link_has_room,
    the_pipes_post_one_batch_at_most, the_pipes_post_what_is_due,
    what_completes_is_next_to_complete, what_lands_is_next_to_land, wires_and_pipes_agree,
};
pub use pipe_model::StepFault;
pub use settings::{BadField, Field};
pub use stream_laws::{
    a_stream_begins_with_what_waits, a_write_goes_into_the_own_stream,
    only_the_handshake_posts_clc, own_streams_stand_with_the_posts,
    the_peers_streams_give_what_is_taken, untaken_messages_are_as_long_as_told,
    untaken_messages_can_be_written,
};
pub use world::{NewFault, World};
pub use world_laws::{
    a_lawful_world_has_a_lawful_history, calls_were_told_by_their_pipes,
    equal_parts_were_told_the_same, every_run_of_steps_is_lawful,
};
