//! Laws about FARM-1's records, the numbers and texts of statuses, and frames and packets that were written.

ghost use Rattle.std.specs.Prelude.{◌≡◌, ◌<◌, ◌∷◌, [], ℕ, Bool, List, Ok, Err, Some, IsSome, length, map};
ghost use Rattle.tc_link.specs.Bits.{bit};
ghost use Rattle.tc_link.specs.declared.command.Kind.{Kind};
ghost use Rattle.tc_link.specs.declared.farm.Arrival.{Arrival};
ghost use Rattle.tc_link.specs.declared.farm.Arrival.TheVariants.{Frame};
ghost use Rattle.tc_link.specs.declared.frame.FrameFault.{FrameFault};
ghost use Rattle.tc_link.specs.declared.location.LocateFault.{LocateFault};
ghost use Rattle.tc_link.specs.declared.writing.WriteFault.{WriteFault};
ghost use Rattle.tc_link.specs.declared.frame.Header.{Header};
ghost use Rattle.tc_link.specs.Farm.{Machine, row_of, entry};
ghost use Rattle.tc_link.specs.Frame.{IsFrame};
ghost use Rattle.tc_edges.specs.declared.fecf.frames.FieldFault.{FieldFault};
ghost use Rattle.tc_edges.specs.declared.write.packets.PacketHeader.{PacketHeader};
ghost use Rattle.tc_edges.specs.Write.Packets.{IsPacketOf};
ghost use Rattle.tc_queues.specs.declared.settings.Settings.{Settings};
ghost use Rattle.tc_queues.specs.declared.settings.SettingsFault.{SettingsFault};
ghost use Rattle.tc_channel.specs.declared.event.Event.{Event};
ghost use Rattle.tc_queues.specs.Settings.{IsAllowed};
ghost use Rattle.tc_channel.specs.Run.{IsLawfulWithin, run_within};
ghost use Rattle.tc_fixed.specs.declared.limits.LimitsFault.{LimitsFault};
ghost use Rattle.tc_c.specs.declared.farm.FarmRecord.{FarmRecord};
ghost use Rattle.tc_c_base.specs.declared.status.Status.{Status};
ghost use Rattle.tc_c_base.specs.declared.status.Status.TheVariants as st;
ghost use Rattle.tc_c_base.specs.Status.{code_of, status_of, text_of};
ghost use Rattle.tc_c.specs.Status.{frame_status, locate_status, write_status, field_status, settings_status, limits_status};
ghost use Rattle.tc_c.specs.Farm.{IsFarm, first_farm, record_of, farm_of, arrival_of, left};
ghost use Rattle.tc_c.specs.Frame.{kind_number, kind_value, header_record, frame_record};
ghost use Rattle.tc_c.specs.Packet.{packet_record, written_packet};

/// Each FARM-1 can be read from its record (`back`). If a FARM-1 can be read from a record, the record is this FARM-1's
/// own (`kept`). The FARM-1 then has an allowed width, a FARM-B counter below 4, and flags that agree with its state
/// (`farm`).
pub fn a_record_reads_back()
    ensures back { (farm : Machine) → IsFarm farm → farm_of (record_of farm) ≡ Ok farm }
    ensures kept { (kept : FarmRecord) (farm : Machine) → farm_of kept ≡ Ok farm → record_of farm ≡ kept }
    ensures farm { (kept : FarmRecord) (farm : Machine) → farm_of kept ≡ Ok farm → IsFarm farm }
{}

/// After a step for which the state table has an entry, the next call can read the FARM-1 from its record.
pub fn a_step_leaves_a_farm()
    ensures { (farm : Machine) (arrival : Arrival) → IsFarm farm → IsSome (entry (row_of farm.width farm.report.vr arrival) farm.report)
        → IsFarm (left farm arrival) }
{}

/// A FARM-1 that starts can be read from its record by the next call, and so can the FARM-1 of a channel after each
/// lawful journal.
pub fn each_channel_has_a_farm()
    ensures start { (width first : ℕ) (farm : Machine) → first_farm width first ≡ Ok farm → IsFarm farm }
    ensures run { (limits : ℕ → ℕ) (s : Settings) (journal : List Event) → IsAllowed s → IsLawfulWithin limits s journal
        → IsFarm (record { width = s.width; report = (run_within limits s journal).report }) }
{
    a_step_leaves_a_farm();
}

/// If `tcrx_farm_step` gets the number and the value that report a kind, the arrival is a frame of that kind.
pub fn each_kind_comes_to_farm_1()
    ensures { (kind : Kind) (room : Bool) → arrival_of (kind_number kind) (kind_value kind) (bit room) ≡ Ok (Frame kind room) }
{}

/// Each status has a number of its own.
pub fn each_status_has_a_number()
    ensures { (st : Status) → status_of (code_of st) ≡ Some st }
{}

/// No two faults of one kind have the same status. There is a kind for octets that begin with no frame, for octets that
/// are for none of the channels, and for frames that aren't written. There is one for frame error control fields, one
/// for settings, and one for settings with limits.
pub fn each_fault_has_a_status_of_its_own()
    ensures frames { (one other : FrameFault) → frame_status one ≡ frame_status other → one ≡ other }
    ensures locations { (one other : LocateFault) → locate_status one ≡ locate_status other → one ≡ other }
    ensures writing { (one other : WriteFault) → write_status one ≡ write_status other → one ≡ other }
    ensures fields { (one other : FieldFault) → field_status one ≡ field_status other → one ≡ other }
    ensures settings { (one other : SettingsFault) → settings_status one ≡ settings_status other → one ≡ other }
    ensures limits { (one other : LimitsFault) → limits_status one ≡ limits_status other → one ≡ other }
{}

/// The numbers of statuses are those of `dist/tcrx.h`, in its order. First come the statuses for frames that are read, and
/// for octets that are written. Then come those for FARM-1, CLCWs, packets and buffers, those for channels, their
/// settings and their limits, and those for CLTUs and telemetry frames. The last ones are for sessions, in
/// `dist/tcrx_lines.h`.
pub fn statuses_have_these_numbers()
    ensures frames { map code_of (st.Done ∷ st.Short ∷ st.Version ∷ st.Spare ∷ st.LengthSmall ∷ st.Truncated ∷ st.Fill ∷ st.NoFecf
        ∷ st.WrongFecf ∷ []) ≡ 0 ∷ 1 ∷ 2 ∷ 3 ∷ 4 ∷ 5 ∷ 6 ∷ 7 ∷ 8 ∷ [] }
    ensures writing { map code_of (st.BadField ∷ st.EmptyData ∷ st.TooLong ∷ st.NoMemory ∷ st.LongPacket ∷ st.LongUnit
        ∷ st.LongFrame ∷ st.BadSize ∷ st.NoSegment ∷ st.BadCommand ∷ [])
        ≡ 10 ∷ 11 ∷ 12 ∷ 13 ∷ 14 ∷ 15 ∷ 16 ∷ 17 ∷ 18 ∷ 19 ∷ [] }
    ensures parts { map code_of (st.BadWidth ∷ st.BadState ∷ st.BadFarmB ∷ st.BadFlag ∷ st.FlagsDisagree ∷ st.BadArrival
        ∷ st.NoEntry ∷ st.BadVcid ∷ st.NoClcw ∷ st.NoPacket ∷ st.NoRoom ∷ st.Null ∷ st.NoStatus ∷ [])
        ≡ 20 ∷ 21 ∷ 22 ∷ 23 ∷ 24 ∷ 25 ∷ 26 ∷ 30 ∷ 31 ∷ 40 ∷ 50 ∷ 51 ∷ 52 ∷ [] }
    ensures settings { map code_of (st.BadBuffer ∷ st.BadApid ∷ st.DoubleApid ∷ st.BadCapacity ∷ st.BadMap ∷ st.DoubleMap
        ∷ st.BadUnits ∷ st.PlainMap ∷ []) ≡ 60 ∷ 61 ∷ 62 ∷ 63 ∷ 64 ∷ 65 ∷ 66 ∷ 67 ∷ [] }
    ensures channels { map code_of (st.NoChannel ∷ st.InUse ∷ st.NoQueue ∷ st.NoMap ∷ st.Empty ∷ st.OtherSpacecraft
        ∷ st.UnknownChannel ∷ []) ≡ 70 ∷ 71 ∷ 72 ∷ 73 ∷ 74 ∷ 75 ∷ 76 ∷ [] }
    ensures limits { map code_of (st.BadOthers ∷ st.BadLimitMap ∷ st.DoubleLimit ∷ st.BadLimit ∷ st.PlainLimit ∷ st.UnlistedMap
        ∷ []) ≡ 80 ∷ 81 ∷ 82 ∷ 83 ∷ 84 ∷ 85 ∷ [] }
    ensures edges { map code_of (st.LongCltu ∷ st.BadLength ∷ st.NoControl ∷ st.BadDecoder ∷ []) ≡ 90 ∷ 91 ∷ 92 ∷ 93 ∷ [] }
    ensures sessions { map code_of (st.NoSession ∷ st.SessionInUse ∷ st.BadScid ∷ st.BadLine ∷ st.Waiting ∷ st.Lost ∷ st.Over
        ∷ []) ≡ 100 ∷ 101 ∷ 102 ∷ 103 ∷ 104 ∷ 105 ∷ 106 ∷ [] }
{}

/// A record in S2 or S3 with Wait but without Retransmit is refused, because no FARM-1 has it. FARM-1 sets both flags
/// when it has no room for the expected frame. While Wait is set, only an Unlock or a Set V(R) clears Retransmit, and
/// it clears Wait as well. A frame outside the window leads from S2 to S3, with both flags as they were.
pub fn no_farm_waits_without_retransmit()
    ensures wait { farm_of (record { width = 10; state = 2; vr = 0; farm_b = 0; lockout = 0; wait = 1; retransmit = 0 }) ≡ Err st.FlagsDisagree }
    ensures lockout { farm_of (record { width = 10; state = 3; vr = 0; farm_b = 0; lockout = 1; wait = 1; retransmit = 0 }) ≡ Err st.FlagsDisagree }
{}

/// A frame and a packet that were written can be read back with the header with which they were written.
pub fn what_was_written_reads_back()
    ensures frame { (frame field : List ℕ) (header : Header) → IsFrame frame header field
        → frame_record frame ≡ record { status = code_of Status.Done; header = header_record header; length = length frame } }
    ensures packet { (packet field : List ℕ) (header : PacketHeader) → IsPacketOf packet header field
        → packet_record packet ≡ written_packet (length packet) header }
{}

/// Each text fits in 64 octets, together with the octet 0 after it.
pub fn each_text_fits_64_octets()
    ensures { (st : Status) → length (text_of st) < 64 }
{}
