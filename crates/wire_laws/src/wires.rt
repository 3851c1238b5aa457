//! A link carries of each end just what its private pipe has under way.
ghost use Rattle.cdc_wire.specs.declared.CdcMessage.{CdcMessage};
ghost use Rattle.history_laws.specs.Made.{IsMadeAll};
ghost use Rattle.history_laws.specs.Wires.{cdc_under};
ghost use Rattle.lending_laws.specs.Ends.{AllPlain};
ghost use Rattle.link_laws.specs.Lasting.{is_lost};
ghost use Rattle.pipe_model.specs.Wires.{unlanded};
ghost use Rattle.pipe_model.specs.declared.entry.Entry.{Entry};
ghost use Rattle.pipe_model.specs.declared.post.Placed.{Placed};
ghost use Rattle.pipe_model.specs.declared.setup.Setup.{Setup};
ghost use Rattle.smc_num.specs.declared.LinkId.{LinkId};
ghost use Rattle.smc_num.specs.declared.Side.{Side};
ghost use Rattle.std.specs.Prelude.{List, Some, false, ℕ, ◌∷◌, ◌≡◌};
ghost use Rattle.wire_laws.specs.Agreement.{Agrees, IsOneEnds, OwedToAgreement};

/// Wires and pipes agree, where offers, links and establishments are as they should be.
pub fn wires_and_pipes_agree()
    ensures { (setup : Setup) (payload : List ℕ) (past : List Entry) → IsMadeAll setup payload past → AllPlain setup payload past → Agrees setup payload past }
{}

/// The CDC message that is first on a link which its side has not lost is the next one of one end,
/// whose link it is.
pub fn the_first_message_is_the_next_of_one_end()
    ensures { (setup : Setup) (payload : List ℕ) (past : List Entry) → OwedToAgreement setup payload past → Agrees setup payload past → (x : Side) (link : LinkId) → is_lost x link past ≡ false → (c : Placed) (rest : List Placed) → unlanded link x past ≡ c ∷ rest → (m : CdcMessage) → cdc_under x m.token c.post ≡ Some m → IsOneEnds setup payload x link past m }
{}
