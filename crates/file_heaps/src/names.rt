//! Names of functions, and what they tell of a heap.
ghost use Rattle.std.specs.Prelude.{◌≡◌, ◌||◌, ◌&&◌, ◌==◌, not, codes};
ghost use Rattle.file_heaps.specs.Names.{has_part, heap_functions, is_allocator, is_among, is_likely, is_reserved, is_rusts, library_allocators, mapped_mark, operators, speaks_of_blocks};
ghost use Rattle.std.specs.Str.{bytes_eq};

use crate::searching::{has_part, is_among};

/// The functions that the machine takes over.
const HEAP_FUNCTIONS: &[u8] = b"malloc free calloc realloc";

/// The name that an adopted file gives to the places of other functions that lead to these.
const MAPPED_MARK: &[u8] = b"__replaycheck_mapped";

/// Functions of FreeRTOS and Zephyr that give a block of a heap of their own.
const ALLOCATORS_A: &[u8] =
    b"pvPortMalloc pvPortCalloc k_malloc k_calloc k_aligned_alloc k_heap_alloc k_heap_aligned_alloc";

/// The same of RT-Thread, Zephyr's lower layer and Mynewt.
const ALLOCATORS_B: &[u8] =
    b"rt_malloc rt_calloc rt_memheap_alloc rt_mp_alloc sys_heap_alloc os_memblock_get";

/// Of ChibiOS, uC/OS, ThreadX and CMSIS-RTOS2.
const ALLOCATORS_C: &[u8] =
    b"chHeapAlloc chHeapAllocAligned chPoolAlloc OSMemGet tx_byte_allocate tx_block_allocate osMemoryPoolAlloc";

/// Of ESP-IDF, TLSF, umm_malloc and o1heap.
const ALLOCATORS_D: &[u8] =
    b"heap_caps_malloc tlsf_malloc tlsf_memalign umm_malloc umm_calloc umm_multi_malloc o1heapAllocate";

/// Functions of C libraries that give a block, under names of their own.
const LIBRARY_ALLOCATORS: &[u8] =
    b"memalign _malloc_r _calloc_r _realloc_r _memalign_r _aligned_alloc_r _valloc_r _pvalloc_r";

/// Operators of C++ that do.
const OPERATORS: &[u8] =
    b"_Znwj _Znaj _ZnwjRKSt9nothrow_t _ZnajRKSt9nothrow_t _ZnwjSt11align_val_t _ZnajSt11align_val_t";

/// Returns whether the machine takes over the function of this name.
pub(crate) fn is_heap_function(name: &[u8]) -> bool
    ensures { result ≡ is_among 32 heap_functions name.now }
{
    is_among(b' ', HEAP_FUNCTIONS, name)
}

/// Returns whether a name says that another function of its place is mapped to one of these.
pub(crate) fn is_mapped_mark(name: &[u8]) -> bool
    ensures { result ≡ bytes_eq name.now mapped_mark }
{
    name == MAPPED_MARK
}

/// Returns whether a function of this name gives a block of a real-time system's own heap.
pub(crate) fn is_allocator(name: &[u8]) -> bool
    ensures { result ≡ is_allocator name.now }
{
    is_among(b' ', ALLOCATORS_A, name)
        || (is_among(b' ', ALLOCATORS_B, name)
            || (is_among(b' ', ALLOCATORS_C, name) || is_among(b' ', ALLOCATORS_D, name)))
}

/// Returns whether a name begins with an underscore, as those of the implementation do.
#[tactic(auto, unfolding(crate::specs::Names::is_reserved))]
fn is_reserved(name: &[u8]) -> bool
    ensures { result ≡ is_reserved name.now }
{
    match name {
        [] => false,
        [first, ..] => *first == b'_',
    }
}

/// Returns whether a name has `alloc` in it, and isn't a reserved one.
fn speaks_of_blocks(name: &[u8]) -> bool
    ensures { result ≡ speaks_of_blocks name.now }
{
    (has_part(b"alloc", name) || has_part(b"Alloc", name)) && !is_reserved(name)
}

/// Returns whether a name is one of Rust's functions of the heap.
fn is_rusts(name: &[u8]) -> bool
    ensures { result ≡ is_rusts name.now }
{
    has_part(b"__rust_alloc", name) || has_part(b"__rust_realloc", name)
}

/// Returns whether a function of this name is likely to give blocks.
pub(crate) fn is_likely(name: &[u8]) -> bool
    ensures { result ≡ is_likely name.now }
{
    speaks_of_blocks(name)
        || (is_rusts(name)
            || (is_among(b' ', LIBRARY_ALLOCATORS, name) || is_among(b' ', OPERATORS, name)))
}
