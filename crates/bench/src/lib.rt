// Exports for the benchmarks under bench/: the key table and the words of an image, called from C.
#![tactic(auto)]

ghost use Rattle.std.specs.Prelude.{◌≡◌, length, get_or};
ghost use Rattle.index.specs.Index.{get, insert, zeros, used, Removal};
ghost use Rattle.spec.specs.Words.{words_of};
ghost use Rattle.words.specs.Image.{Saved};

use index::Put;

#[unsafe(no_mangle)]
pub extern "C" fn bench_index_clear(table: &mut [u64])
    ensures { table.new ≡ zeros (length table.old) }
{
    index::clear(table);
}

#[unsafe(no_mangle)]
pub extern "C" fn bench_index_look(table: &[u64], key: u64) -> u64
    ensures { result ≡ get table.now key }
{
    index::get(table, key)
}

// 0: the key is new. 1: it was there. 2: there is no slot for it.
#[unsafe(no_mangle)]
pub extern "C" fn bench_index_insert(table: &mut [u64], key: u64, info: u64) -> u64
    ensures { table.new ≡ insert table.old key info }
{
    let put = index::insert_or_update(table, key, info);
    match put {
        Put::New => 0,
        Put::Old => 1,
        Put::Full => 2,
    }
}

#[unsafe(no_mangle)]
pub extern "C" fn bench_index_remove(table: &mut [u64], key: u64) -> bool
    ensures { Removal table.old table.new key result }
{
    index::remove(table, key)
}

#[unsafe(no_mangle)]
pub extern "C" fn bench_index_count(table: &[u64]) -> usize
    ensures { result ≡ used table.now }
{
    index::count(table)
}

#[unsafe(no_mangle)]
pub extern "C" fn bench_load(img: &[u8], w: usize) -> u64
    ensures { result ≡ get_or (words_of img.now) w 0 }
{
    words::load(img, w)
}

#[unsafe(no_mangle)]
pub extern "C" fn bench_save(img: &mut [u8], w: usize, v: u64)
    ensures { Saved img.old img.new w v }
{
    words::save(img, w, v);
}
