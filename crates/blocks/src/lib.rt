// The block of 88 octets, by value: its header read, one made of a header and a page's text, and one taken out of a run of them.
#![tactic(auto)]

ghost use Rattle.std.specs.Prelude.{◌≡◌, ◌+◌, ◌*◌};
ghost use Rattle.pages.specs.Blocks.{header_of, block_of};
ghost use Rattle.pages.specs.Ordered.{block_or_zeros};

use pages::Header;

// The five fields in front of the text of a block. It refuses nothing.
pub fn read_header(block: [u8; 88]) -> Header
    ensures answer { result ≡ header_of block }
{
    Header {
        sequence: u16::from_be_bytes([block[0], block[1]]),
        identifier: u16::from_be_bytes([block[2], block[3]]),
        coding: block[4],
        total: block[5] & 0x0f,
        number: (block[5] >> 4) & 0x0f,
    }
}

// The block with a header in front of a page's text. Of the total and the number it takes the low four bits. It refuses nothing.
pub fn page_block(head: Header, text: [u8; 82]) -> [u8; 88]
    ensures answer { result ≡ block_of head text }
{
    let [sequence_high, sequence_low] = head.sequence.to_be_bytes();
    let [identifier_high, identifier_low] = head.identifier.to_be_bytes();
    let page = head.total % 16 + 16 * (head.number % 16);
    let front = [
        sequence_high,
        sequence_low,
        identifier_high,
        identifier_low,
        head.coding,
        page,
    ];
    let mut block = [0u8; 88];
    block[..6].copy_from_slice(&front);
    block[6..].copy_from_slice(&text);
    block
}

// Block i, counted from 0, of blocks that stand end to end, and zeros where there is none. It refuses nothing.
pub fn block_at(blocks: &[u8], i: usize) -> [u8; 88]
    ensures answer { result ≡ block_or_zeros blocks.now i }
{
    let (blocks, _) = blocks.as_chunks::<88>();
    blocks.get(i).copied().unwrap_or([0u8; 88])
}
