//! What holds of every history that a world of one link makes, whatever is asked of it. Each law is a
//! function with nothing to do, whose contract is the law.

ghost use Rattle.std.specs.Prelude.{◌≡◌, ℕ, ◌<◌, ◌≤◌, ◌==◌, true, false, List, [], ◌∷◌, length, find, Option, Some, None, option_map};
ghost use Rattle.smc_num.specs.declared.Side.{Side as SideT};
ghost use Rattle.smc_num.specs.declared.LinkId.{LinkId as Link};
ghost use Rattle.smc_num.specs.Names.{other};
ghost use Rattle.smc_num.specs.Keys.{bound};
ghost use Rattle.clc_wire.specs.declared.offer.Offer.{Offer};
ghost use Rattle.pipe_model.specs.declared.setup.Setup.{Setup};
ghost use Rattle.pipe_model.specs.declared.entry.Entry.{Entry};
ghost use Rattle.pipe_model.specs.History.{Offered, offered};
ghost use Rattle.pipe_model.specs.Fabric.{has_ended, group_of, path_up};
ghost use Rattle.pipe_model.specs.Wires.{is_cut, is_dead};
ghost use Rattle.pipe_model.specs.Connections.{is_up, end_state, part};
ghost use Rattle.pipe_model.specs.Lending.{Lending, lendings, lends_by, lent, record_of};
ghost use Rattle.pipe_model.specs.Keys.{book_of, last_bound};
ghost use Rattle.pipe_model.specs.Fallback.{is_fallen, untaken};
ghost use Rattle.pipe_model.specs.Pipe.{Terms, half, pipe};
ghost use Rattle.pipe_model.specs.Posts.{end_posts, groups_begun};
ghost use Rattle.world_core.specs.Played.{IsOneLink, IsPlayed};
ghost use Rattle.world_core.specs.OneLink.{the_link, the_key, Stage, IsAtStage, is_made, is_of_first};
ghost use Rattle.world_core.specs.Sockets.{HasWorld, IsOffer, IsWorld, on_link, Socket, StandsAt, end_at};
ghost use Rattle.world_core.specs.Lent.{AreLendings};

/// The one link is at one step of its making, nothing is cut, and each socket is at one step of its
/// handshake, in step with the link.
pub fn the_link_and_the_sockets_are_somewhere()
    ensures { (setup : Setup) (payload : List ℕ) (past : List Entry) (n : ℕ) → IsOneLink setup
        → IsPlayed setup payload past n → HasWorld setup past }
{}

/// The path is up and the link was never cut; at most one group was begun, and each side is in it or
/// in none.
pub fn nothing_is_cut()
    ensures path { (setup : Setup) (payload : List ℕ) (past : List Entry) (n : ℕ) → IsOneLink setup
        → IsPlayed setup payload past n → path_up 1 past ≡ true }
    ensures link { (setup : Setup) (payload : List ℕ) (past : List Entry) (n : ℕ) → IsOneLink setup
        → IsPlayed setup payload past n → is_cut the_link past ≡ false }
    ensures begun { (setup : Setup) (payload : List ℕ) (past : List Entry) (n : ℕ) → IsOneLink setup
        → IsPlayed setup payload past n → groups_begun past ≤ 1 }
    ensures group { (setup : Setup) (payload : List ℕ) (past : List Entry) (n : ℕ) (x : SideT) → IsOneLink setup
        → IsPlayed setup payload past n → group_of x past ≤ 1 }
{}

/// No group ends.
pub fn no_group_ends()
    ensures { (setup : Setup) (payload : List ℕ) (past : List Entry) (n : ℕ) (x : SideT) (group : ℕ) → IsOneLink setup
        → IsPlayed setup payload past n → has_ended x group past ≡ false }
{}

/// The link is not dead once it is made.
pub fn the_link_is_not_dead()
    ensures { (setup : Setup) (stage : Stage) (past : List Entry) → IsAtStage setup stage past → is_made stage ≡ true
        → is_dead the_link past ≡ false }
{}

/// An end is what its socket's step says.
pub fn ends_are_at_the_step_of_their_socket()
    ensures { (setup : Setup) (k : Socket) (s : ℕ) (past : List Entry) (x : SideT) → StandsAt setup k s past
        → end_state x s past ≡ end_at k x }
{}

/// Each offer is on the one link, of an element of the side's one RMB under its one key, and marked as
/// first just where its socket is that of first contact.
pub fn offers_are_on_the_one_link()
    ensures { (setup : Setup) (stage : Stage) (past : List Entry) (x : SideT) (s : ℕ) (o : Offered) → IsWorld setup stage past
        → offered x s past ≡ Some o → (o.link ≡ the_link) × IsOffer setup x (is_of_first stage s) o.offer }
{}

/// Where an end is up, both sides have offered an element on the one link.
pub fn an_end_that_is_up_has_offers()
    ensures { (setup : Setup) (payload : List ℕ) (past : List Entry) (n : ℕ) (x y : SideT) (s : ℕ) → IsOneLink setup
        → IsPlayed setup payload past n → is_up x s past ≡ true
        → (o : Offer) × (offered y s past ≡ on_link o) × IsOffer setup y o.first o }
{}

/// No CLC message waits for an end that is up.
pub fn no_message_waits_for_an_end_that_is_up()
    ensures { (setup : Setup) (payload : List ℕ) (past : List Entry) (n : ℕ) (x : SideT) (s : ℕ) → IsOneLink setup
        → IsPlayed setup payload past n → is_up x s past ≡ true → untaken (other x) s past ≡ [] }
{}

/// Where an end is up, its side has learnt the one key of the peer, which is bound there.
pub fn an_end_that_is_up_knows_the_key()
    ensures { (setup : Setup) (payload : List ℕ) (past : List Entry) (n : ℕ) (x : SideT) (s : ℕ) → IsOneLink setup
        → IsPlayed setup payload past n → is_up x s past ≡ true
        → (bound 1 the_link (book_of x past) ≡ Some (the_key (other x)).key)
        × (last_bound (other x) 1 the_link past ≡ Some (the_key (other x)).key) }
{}

/// The lendings of a side have the tokens n, .., 2, 1, are for different sockets, each by the side's
/// offer there, and those that stand are of different places.
pub fn lendings_are_apart()
    ensures { (setup : Setup) (payload : List ℕ) (past : List Entry) (n : ℕ) (x : SideT) → IsOneLink setup
        → IsPlayed setup payload past n → AreLendings setup payload x past }
{}

/// After every list of entries a socket has a lending at a side exactly where the side has offered.
pub fn a_lending_is_where_an_offer_is()
    ensures { (x : SideT) (s : ℕ) (past : List Entry)
        → find (λ l. l.s == s) (lendings x past) ≡ option_map (λ o. lends_by s o.link o.offer) (offered x s past) }
{}

/// A side has at most as many lendings as there are sockets, and less where it has not offered on one.
pub fn lendings_are_few()
    ensures most { (setup : Setup) (payload : List ℕ) (past : List Entry) (n : ℕ) (x : SideT) → IsOneLink setup
        → IsPlayed setup payload past n → length (lendings x past) ≤ setup.sockets }
    ensures room { (setup : Setup) (payload : List ℕ) (past : List Entry) (n : ℕ) (x : SideT) (s : ℕ) → IsOneLink setup
        → IsPlayed setup payload past n → s < setup.sockets → offered x s past ≡ None
        → length (lendings x past) < setup.sockets }
{}

/// Two sockets have different tokens at a side.
pub fn tokens_tell_sockets_apart()
    ensures { (setup : Setup) (payload : List ℕ) (past : List Entry) (n : ℕ) (x : SideT) (s r : ℕ) (o q : Offered)
        → IsOneLink setup → IsPlayed setup payload past n → offered x s past ≡ Some o → offered x r past ≡ Some q
        → o.offer.token ≡ q.offer.token → s ≡ r }
{}

/// A token names a lending that stands of the socket for which it was offered.
pub fn a_token_names_an_offer()
    ensures { (setup : Setup) (payload : List ℕ) (past : List Entry) (n : ℕ) (x : SideT) (token : ℕ) (l : Lending)
        → IsOneLink setup → IsPlayed setup payload past n → record_of setup payload x token past ≡ Some l
        → (o : Offer) × ((offered x l.s past ≡ on_link o) × ((l ≡ lends_by l.s the_link o) × (o.token ≡ token))) }
{}

/// An element that was offered stays lent, and its token names it, until its end falls back.
pub fn an_offered_element_stays_lent()
    ensures { (setup : Setup) (payload : List ℕ) (past : List Entry) (n : ℕ) (x : SideT) (s : ℕ) (o : Offer)
        → IsOneLink setup → IsPlayed setup payload past n → offered x s past ≡ on_link o → is_fallen x s past ≡ false
        → (find (λ l. l.s == s) (lent setup payload x past) ≡ Some (lends_by s the_link o))
        × (record_of setup payload x o.token past ≡ Some (lends_by s the_link o)) }
{}

/// After every list of entries an end of a private pipe is up just where the end in the history is.
pub fn an_end_of_a_pipe_is_up_where_the_end_is()
    ensures { (t : Terms) (x : SideT) (payload : List ℕ) (group s : ℕ) (past : List Entry)
        → (half x (pipe t (part payload group s past))).up ≡ is_up x s past }
{}

/// An end that is not up after an entry posts nothing with it.
pub fn an_end_that_is_not_up_posts_nothing()
    ensures { (setup : Setup) (payload : List ℕ) (x : SideT) (s : ℕ) (e : Entry) (past : List Entry)
        → is_up x s (e ∷ past) ≡ false → end_posts setup payload x s e past ≡ [] }
{}
