// How often each of a few things came up.
use words::counting::count;

// Each thing beside its count.
#[derive(Drop)]
pub(crate) struct Counts<K, const N: usize> {
    pub(crate) rows: [(K, u64); N],
}

impl<K: Copy, const N: usize> Counts<K, N> {
    // Counts the first thing of which this holds.
    pub(crate) fn count<P: Fn(K) -> bool>(&mut self, is_it: P)
        requires { P.IsAlwaysCallable is_it }
    {
        let found = self.rows.iter_mut().find(|(key, _)| is_it(*key));
        if let Some((_, times)) = found {
            count(times);
        }
    }

    // The first thing that came up less often than this.
    pub(crate) fn below(&self, enough: u64) -> Option<K> {
        self.rows
            .iter()
            .find(|(_, times)| *times < enough)
            .map(|(key, _)| *key)
    }
}
