// What stands in a scan past its sectors counts for nothing: neither the lists nor the records show it.
use layout::{MOST_SECTORS, SECTOR_BYTES};
use page::{PageState, Seen};

fn page_seen(sequence: u32) -> Seen {
    Seen {
        state: PageState::Active,
        sequence,
        written: 1,
        erased: 2,
        empty: 123,
        illegal: 0,
    }
}

// An erased image of two sectors, which are free; the place behind them and the last one hold a page. Then the second sector is seen as a page too.
#[test]
fn past_the_sectors(rt: HostRuntime) {
    let image = [0xFFu8; 2 * SECTOR_BYTES];
    let mut scanned = records::see_all(&image, 2);
    scanned.seen[2] = page_seen(8);
    scanned.seen[MOST_SECTORS - 1] = page_seen(9);
    let table = table::list_seen(&scanned);
    assert_eq!(rt; table.listed().len(), 0);
    assert_eq!(rt; table.freed(), [0, 1].as_slice());
    let notes = [0u16; MOST_SECTORS];
    let rows = records::make_rows(&image, &scanned, &notes);
    assert_eq!(rt; rows.count, 2);
    for row in &rows.rows {
        assert!(rt; row.state == PageState::Blank);
        assert_eq!(rt; (row.sequence, row.written, row.empty), (0, 0, 0));
    }
    scanned.seen[1] = page_seen(7);
    let table = table::list_seen(&scanned);
    assert_eq!(rt; table.listed().len(), 1);
    let page = table.listed()[0];
    assert_eq!(rt; (page.sector, page.seen.sequence), (1, 7));
    assert_eq!(rt; table.freed(), [0].as_slice());
}
