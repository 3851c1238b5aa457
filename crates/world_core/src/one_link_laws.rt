//! What holds of the one link and the pipes of its connections in every history that this world can
//! make. Each law is a function with nothing to do, whose contract is the law.

ghost use Rattle.std.specs.Prelude.{◌≡◌, ℕ, true, false, List, ◌∷◌};
ghost use Rattle.smc_num.specs.declared.Side.{Side as SideT};
ghost use Rattle.smc_num.specs.declared.LinkId.{LinkId as Link};
ghost use Rattle.cdc_wire.specs.declared.CdcMessage.{CdcMessage as Message};
ghost use Rattle.pipe_model.specs.declared.setup.Setup.{Setup as SetupT};
ghost use Rattle.pipe_model.specs.declared.post.Placed.{Placed as InPlace};
ghost use Rattle.pipe_model.specs.declared.post.Post.TheVariants.{Cdc};
ghost use Rattle.pipe_model.specs.declared.post.Post.{Post as PostT};
ghost use Rattle.pipe_model.specs.declared.post.PostRef.{PostRef as PostRefT};
ghost use Rattle.pipe_model.specs.declared.entry.Entry.{Entry as EntryT};
ghost use Rattle.pipe_model.specs.History.{Offered};
ghost use Rattle.pipe_model.specs.Pipe.{Item};
ghost use Rattle.pipe_model.specs.Wires.{unlanded, uncompleted};
ghost use Rattle.pipe_model.specs.Lawful.{draft};
ghost use Rattle.world_core.specs.Played.{IsOneLink, IsPlayed};
ghost use Rattle.world_core.specs.OneLink.{the_link};
ghost use Rattle.world_core.specs.Lent.{WasNeverOver};
ghost use Rattle.world_core.specs.Due.{PostsDue};
ghost use Rattle.world_core.specs.Room.{HasRoom, FitsElements};
ghost use Rattle.world_core.specs.WireSteps.{IsPlaced, EachPlaced};
ghost use Rattle.world_core.specs.Agreement.{HasOffers, Agree, HasPipe, Spelling, PostsFew, GivesItems, IsOwnUnderToken, NamesRecord, next_to_land, next_to_complete};

/// The link carries of each end just what its pipe has under way, and nothing else under any token;
/// each connection's part can be, and nothing in it is swallowed.
pub fn wires_and_pipes_agree()
    ensures { (setup : SetupT) → IsOneLink setup → (payload : List ℕ) (past : List EntryT) (n : ℕ)
        → IsPlayed setup payload past n → Agree setup payload past }
{}

/// The pipe of each socket is near, its ends are open and never over, and what has not come up has
/// sent nothing.
pub fn no_end_closes()
    ensures { (setup : SetupT) → IsOneLink setup → (payload : List ℕ) (s : ℕ) (past : List EntryT) (n : ℕ)
        → IsPlayed setup payload past n → HasPipe setup payload s past }
{}

/// The CDC message that lands next on the link spells the snapshot which its end has to land next.
pub fn what_lands_is_next_to_land()
    ensures { (setup : SetupT) → IsOneLink setup → (payload : List ℕ) (x : SideT) (past : List EntryT) (n : ℕ)
        → IsPlayed setup payload past n → (c : InPlace) (rest : List InPlace) (from : SideT) (l : Link) (m : Message)
        → unlanded the_link x past ≡ c ∷ rest → c.post ≡ Cdc from l m → Spelling setup payload x past m next_to_land }
{}

/// The CDC message that completes next spells the snapshot which its end has to complete next.
pub fn what_completes_is_next_to_complete()
    ensures { (setup : SetupT) → IsOneLink setup → (payload : List ℕ) (x : SideT) (past : List EntryT) (n : ℕ)
        → IsPlayed setup payload past n → (c : InPlace) (rest : List InPlace) (from : SideT) (l : Link) (m : Message)
        → uncompleted the_link x past ≡ c ∷ rest → c.post ≡ Cdc from l m → Spelling setup payload x past m next_to_complete }
{}

/// In any history the posts that have not landed or not completed stand at their places.
pub fn posts_on_a_wire_stand_in_the_history()
    ensures landing { (link : Link) (x : SideT) (past : List EntryT) → EachPlaced (IsPlaced past) (unlanded link x past) }
    ensures completing { (link : Link) (x : SideT) (past : List EntryT) → EachPlaced (IsPlaced past) (uncompleted link x past) }
{}

/// With an entry all pipes together post nothing, or one batch of one end: at most two writes and the
/// CDC message that tells them.
pub fn the_pipes_post_one_batch_at_most()
    ensures { (setup : SetupT) → IsOneLink setup → (payload : List ℕ) (e : EntryT) (past : List EntryT) (n : ℕ)
        → (p : IsPlayed setup payload (e ∷ past) n) → PostsFew setup payload (draft setup payload past p.0 e.event) past }
{}

/// All offers are on the one link and on known sockets, those of a side under different tokens, and
/// A offers only where B has.
pub fn offers_differ_in_their_tokens()
    ensures { (setup : SetupT) → IsOneLink setup → (payload : List ℕ) (past : List EntryT) (n : ℕ)
        → IsPlayed setup payload past n → HasOffers setup past }
{}

/// An entry gives a connection its deeds, above establishments and the fates of the one link; and the
/// draft of its posts gives the same.
pub fn an_entry_gives_deeds_and_fates()
    ensures { (setup : SetupT) → IsOneLink setup → (payload : List ℕ) (e : EntryT) (past : List EntryT) (n : ℕ)
        → (p : IsPlayed setup payload (e ∷ past) n) → GivesItems setup payload p.0 e past }
{}

/// A landing or a completion is a connection's own just where its post is a CDC message under the
/// token that the peer of its end offered.
pub fn own_messages_are_those_under_the_token()
    ensures { (item : Item) (x : SideT) (s : ℕ) (at : PostRefT) (past : List EntryT) (o : Offered) (post : PostT)
        → IsOwnUnderToken item x s at o post past }
{}

/// On the link no more posts of a side are under way than three for each snapshot that may be in
/// flight, and one LLC message.
pub fn the_link_has_room()
    ensures { (setup : SetupT) → IsOneLink setup → (payload : List ℕ) (x : SideT) (past : List EntryT) (n : ℕ)
        → IsPlayed setup payload past n → HasRoom setup x past }
{}

/// No more ends of a side are up than it has elements, so that the link carries no more posts of it
/// than three for each snapshot of each element, and one LLC message.
pub fn the_link_fits_the_elements()
    ensures { (setup : SetupT) → IsOneLink setup → (payload : List ℕ) (x : SideT) (past : List EntryT) (n : ℕ)
        → IsPlayed setup payload past n → FitsElements setup x past }
{}

/// No end of a lending was ever over, so that its element stays lent.
pub fn no_lending_was_ever_over()
    ensures { (setup : SetupT) → IsOneLink setup → (payload : List ℕ) (past : List EntryT) (n : ℕ)
        → IsPlayed setup payload past n → (x : SideT) → WasNeverOver setup payload x past }
{}

/// The token of the CDC message that lands next names a record which stands: it is not dropped.
pub fn no_message_is_dropped()
    ensures { (setup : SetupT) → IsOneLink setup → (payload : List ℕ) (past : List EntryT) (n : ℕ)
        → IsPlayed setup payload past n → (x : SideT) (c : InPlace) (rest : List InPlace) (from : SideT) (l : Link) (m : Message)
        → unlanded the_link x past ≡ c ∷ rest → c.post ≡ Cdc from l m → NamesRecord setup payload x past m }
{}

/// The pipes post what is due to the one end that an entry makes call or completes a message of, and
/// nothing where it does neither.
pub fn the_pipes_post_what_is_due()
    ensures { (setup : SetupT) → IsOneLink setup → (payload : List ℕ) (e : EntryT) (past : List EntryT) (n : ℕ)
        → (p : IsPlayed setup payload (e ∷ past) n) → PostsDue setup payload (draft setup payload past p.0 e.event) e past }
{}
