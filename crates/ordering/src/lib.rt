// Which of the blocks holds which page: where each page stands, if they are the pages of one message.
#![tactic(auto)]

ghost use Rattle.std.specs.Prelude.{◌≡◌, not, ◌&&◌, ◌<◌, eqb};
ghost use Rattle.std.specs.List.{list_all};
ghost use Rattle.filling.specs.Numbered.{lacks};
ghost use Rattle.pages.specs.Blocks.{header_of};
ghost use Rattle.pages.specs.Joined.{same_octets, of_one_message};
ghost use Rattle.pages.specs.Ordered.{order_of};

// Of each page, by its number, one more than its place among the blocks: 0 is none, so that the array that is handed over by value stays as small. Judges the pages in one pass over the blocks, which ends at the first
// that is wrong: of more than 15 blocks one is. It refuses nothing: what is wrong has no places.
pub fn page_order(blocks: &[u8]) -> Option<[usize; 16]>
    ensures answer { result ≡ order_of blocks.now }
{
    let (pages, _) = blocks.as_chunks::<88>();
    let first = *pages.first()?;
    let mut places = [0usize; 16];
    for (i, &page) in pages.iter().enumerate() {
        if !belongs(first, page) {
            return None;
        }
        let k = number_in(page);
        if places[k] != 0 {
            return None;
        }
        places[k] = i + 1;
    }
    let total = blocks::read_header(first).total as usize;
    if !all_there(&places[1..=total]) {
        return None;
    }
    Some(places)
}

// The number of the page in a block.
fn number_in(block: [u8; 88]) -> usize
    ensures { (result ≡ (header_of block).number) × (result < 16) }
{
    blocks::read_header(block).number as usize
}

// Whether a block is of the message of the first one, and its number is from 1 to the total.
fn belongs(first: [u8; 88], block: [u8; 88]) -> bool
    ensures { result ≡ (of_one_message first block && not (lacks (header_of block).total (header_of block).number)) }
{
    let head = blocks::read_header(block);
    of_one_message(first, block) && !lacks(head.total, head.number)
}

// Whether two blocks have the same octets 1 to 5 and the same total.
fn of_one_message(a: [u8; 88], b: [u8; 88]) -> bool
    ensures { result ≡ of_one_message a b }
{
    same_head(a, b) && blocks::read_header(a).total == blocks::read_header(b).total
}

// Whether a number is not from 1 to the total.
fn lacks(total: u8, number: u8) -> bool
    ensures { result ≡ lacks total number }
{
    number == 0 || total < number
}

// Whether octets 1 to 5 of two blocks are the same. They are taken out of the blocks: where slices of these are compared, the compiler copies each block whole.
fn same_head(a: [u8; 88], b: [u8; 88]) -> bool
    ensures { result ≡ same_octets 5 a b }
{
    [a[0], a[1], a[2], a[3], a[4]] == [b[0], b[1], b[2], b[3], b[4]]
}

// Whether each of these places is one.
fn all_there(places: &[usize]) -> bool
    ensures { result ≡ list_all (λ place. not (eqb place 0)) places.now }
{
    places.iter().all(|place| *place != 0)
}
