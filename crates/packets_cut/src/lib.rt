// The cutter: how many packets a message takes, and packet number n written into a lent area.
#![tactic(auto)]

ghost use Rattle.std.specs.Prelude.{◌≡◌, List, ℕ, ◌≤◌, ◌<◌, ◌↔◌, IsSome, IfSome, IsTrue, length};
ghost use Rattle.rules.specs.Packets.{size_right};
ghost use Rattle.rules.specs.Cutting.{avdtp, packets_for, header as headerFor};
ghost use Rattle.rules.specs.Host.{packets_call, Cut, cut_call};
ghost use Rattle.rules.proofs.Pieces.{header_of, before};
ghost use Rattle.octets.specs.Patch.{patch};
ghost use Rattle.packets_cut.specs.Told.{piece_of};

use rules::refusals::Refusal;
use rules::{Header, Piece};

// A packet size at which messages are cut: none other is made.
#[derive(Clone, Copy)]
pub struct PacketSize {
    pub octets: usize,
    ghost least: { 48 ≤ octets },
    ghost most: { octets ≤ 672 },
}

impl PacketSize {
    #[tactic(auto, unfolding(rules::specs::Packets::size_right, rules::specs::Octets::between))]
    pub fn new(octets: usize) -> Option<PacketSize>
        ensures right { IsSome result ↔ IsTrue (size_right octets) }
        ensures same { IfSome result (λ size. size.octets ≡ octets) }
    {
        if octets < 48 || 672 < octets {
            return None;
        }
        Some(PacketSize { octets })
    }

    // How many packets a payload of this length takes: one, or a start and then as many further ones as hold the rest. Rounded up
    // by hand: `div_ceil` looks at the remainder, and `cut` took 7 instructions more.
    #[tactic(auto, unfolding(rules::specs::Cutting::packets_for))]
    pub fn count(self, length: usize) -> usize
        requires { length ≤ 512 }
        ensures { result ≡ packets_for avdtp self.octets length }
    {
        if length <= self.octets - 2 {
            1
        } else {
            (length - (self.octets - 3) + (self.octets - 2)) / (self.octets - 1) + 1
        }
    }

    // Octets of payload before packet number `index`.
    #[tactic(auto, unfolding(rules::proofs::Pieces::before))]
    fn offset(self, index: usize) -> usize
        requires { index ≤ 255 }
        ensures { result ≡ before avdtp self.octets index }
    {
        if index == 0 {
            0
        } else {
            self.octets - 3 + (index - 1) * (self.octets - 1)
        }
    }
}

// How many packets a payload takes at any size and of any length: 0 where one of them is refused.
#[tactic(auto, unfolding(rules::specs::Host::packets_call, rules::specs::Packets::longest))]
pub fn packets(size: usize, length: usize) -> usize
    ensures { result ≡ packets_call size length }
{
    match PacketSize::new(size) {
        Some(size) if length <= 512 => size.count(length),
        _ => 0,
    }
}

// Octets of header in packet number `index` of `total`.
#[tactic(auto, unfolding(rules::proofs::Pieces::header_of))]
fn header_size(total: usize, index: usize) -> usize
    ensures { result ≡ header_of avdtp total index }
{
    if index != 0 {
        1
    } else if total == 1 {
        2
    } else {
        3
    }
}

// Writes that header at the front of `area`.
#[tactic(auto, unfolding(rules::proofs::Pieces::header_of))]
fn put_header(area: &mut [u8], header: Header, total: usize, index: usize)
    requires label_fits { header.label < 16 }
    requires mtype_fits { header.mtype < 4 }
    requires index_within { index < total }
    requires total_fits { total ≤ 255 }
    requires header_fits { header_of avdtp total index ≤ length area.old }
    ensures { (p : List ℕ)
        → area.new ≡ patch 0 (headerFor (record { header = header; payload = p }) total index) area.old }
{
    // octet 0 of a single, whose packet type is 0; the packet type counts by 4
    let single = header.label * 16 + header.mtype;
    if index != 0 {
        if index + 1 < total {
            area[0] = single + 8;
        } else {
            area[0] = single + 12;
        }
    } else if total == 1 {
        area[0] = single;
        area[1] = header.signal;
    } else {
        area[0] = single + 4;
        area[1] = total as u8;
        area[2] = header.signal;
    }
}

// Writes packet number `index` of a message, counted from 0, at the front of `area`; the answer is the packet's length.
fn write(
    size: usize,
    header: Header,
    payload: &[u8],
    index: usize,
    area: &mut [u8],
) -> Result<usize, Refusal>
    ensures { ◌≡◌ {A = Cut} (record { piece = piece_of result; area = area.new })
        (cut_call size (record { header = header; payload = payload.now }) index area.old) }
{
    let size = PacketSize::new(size).ok_or(Refusal::PacketSize)?;
    if 512 < payload.len() || 15 < header.label || 3 < header.mtype || 63 < header.signal {
        return Err(Refusal::Message);
    }
    let total = size.count(payload.len());
    if total <= index {
        return Err(Refusal::Message);
    }
    let head_size = header_size(total, index);
    let from = size.offset(index);
    let part_size = (size.octets - head_size).min(payload.len() - from);
    if area.len() < head_size + part_size {
        return Err(Refusal::Area);
    }
    put_header(area, header, total, index);
    octets::put(area, head_size, octets::part(payload, from, part_size));
    Ok(head_size + part_size)
}

// Writes that packet for the host, who is told a number.
#[tactic(auto, unfolding(crate::specs::Told::piece_of))]
pub fn cut(size: usize, header: Header, payload: &[u8], index: usize, area: &mut [u8]) -> Piece
    ensures { ◌≡◌ {A = Cut} (record { piece = result; area = area.new })
        (cut_call size (record { header = header; payload = payload.now }) index area.old) }
{
    match write(size, header, payload, index, area) {
        Ok(length) => Piece { number: 0, length },
        Err(refusal) => Piece {
            number: u8::from(refusal),
            length: 0,
        },
    }
}
