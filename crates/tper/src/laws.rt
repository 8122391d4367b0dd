//! Laws of what is answered.

ghost use Rattle.std.specs.Prelude.{◌≡◌, ◌+◌, true, List, Option};
ghost use Rattle.tcg_tokens.specs.Tree.{Tree};
ghost use Rattle.tcg_calls.specs.Carried.{is_carried};
ghost use Rattle.transactions.specs.Stored.{Stored};
ghost use Rattle.sessions.specs.Live.{Live};
ghost use Rattle.basics.specs.declared.profile.Profile.{Profile};
ghost use Rattle.sessions.specs.declared.beside.HostLimits.{HostLimits};
ghost use Rattle.sessions.specs.Beside.{IsSmall};
ghost use Rattle.sessions.specs.Properties.{properties_message, max_com_packet_size, max_packet_size};
ghost use Rattle.compacket.specs.declared.headers.TheConstants.{COM_PACKET_HEADER, MAX_COM_PACKET};
ghost use Rattle.sessions.specs.Starts.{start_reply};
ghost use Rattle.sp_cells.specs.declared.names.Uid.{Uid};
ghost use Rattle.sp_cells.specs.declared.names.Sp.{Sp};
ghost use Rattle.tcg_calls.specs.declared.call_shapes.ask.Ask.{Ask};
ghost use Rattle.methods.specs.Judgement.{Standing, judged};
ghost use Rattle.methods.specs.Calls.{outcome_of};
ghost use Rattle.sp_cells.specs.Flat.{LookUp};

/// Each answer can be carried by a response: it has a writing, which is no longer than a ComPacket
/// has room for.
///
/// `call`: that to a call of a live session. `start`: that to a StartSession. `properties`: that to
/// Properties.
pub fn laws_of_answers()
    ensures call { (rows : LookUp) (sp : Sp) (its : Standing) (object method : Uid)
        (ask : Option Ask)
        → is_carried (outcome_of rows sp (judged its object method ask)).said ≡ true }
    ensures start { (s : Stored) (l : Live) (args : List Tree)
        → is_carried (start_reply s l args) ≡ true }
    ensures properties { (profile : Profile) (before : HostLimits) (args : List Tree)
        → IsSmall before → is_carried (properties_message profile before args) ≡ true }
{}

/// What Properties tells of sizes is what ComPackets have: at most so many bytes, less the ComPacket's header in a packet.
pub fn laws_of_sizes()
    ensures com_packet { max_com_packet_size ≡ MAX_COM_PACKET }
    ensures packet { max_packet_size + COM_PACKET_HEADER ≡ MAX_COM_PACKET }
{}
