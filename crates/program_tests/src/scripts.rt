//! Scripts and their replies, one line each.

/// A script, and what it is answered where nothing fails.
#[derive(Clone, Copy)]
pub(crate) struct Script {
    pub(crate) lines: &'static str,
    pub(crate) replies: &'static [u8],
}

/// Pages with replicas, tickets that finish in any order, short and over many pages, a branch, and sync.
pub(crate) static SCRIPTS: [Script; 5] = [
    Script {
        lines: "create\nappend 1 616263646566\nappend 1 5859\nread 1 2 4 4\nread 1 1 0 6\n",
        replies: b"blob 1\nversion 1 at 0 size 6\nversion 2 at 6 size 8\ndata 65665859\ndata 616263646566\n",
    },
    Script {
        lines: "create\nstart-append 1 aa\nstart-append 1 bb\nfinish 2\nstatus 1\nread 1 2 0 2\nfinish 1\nread 1 2 0 2\n",
        replies: b"blob 1\nticket 1 version 1 at 0 size 1\nticket 2 version 2 at 1 size 2\npublished 0\nstatus assigned 2 published 0 held 1\nerror not-published 2 0\npublished 2\ndata aabb\n",
    },
    Script {
        lines: "create\nstart-append 1 00\nstart-append 1 0102030405060708090a0b0c0d0e0f101112131415161718191a1b1c1d1e1f\nfinish 2\nfinish 1\nread 1 2 0 32\n",
        replies: b"blob 1\nticket 1 version 1 at 0 size 1\nticket 2 version 2 at 1 size 32\npublished 0\npublished 2\ndata 000102030405060708090a0b0c0d0e0f101112131415161718191a1b1c1d1e1f\n",
    },
    Script {
        lines: "create\nappend 1 616263646566\nappend 1 5859\nbranch 1 1\nappend 2 5a\nread 1 2 0 8\nread 2 2 0 7\n",
        replies: b"blob 1\nversion 1 at 0 size 6\nversion 2 at 6 size 8\nblob 2\nversion 2 at 6 size 7\ndata 6162636465665859\ndata 6162636465665a\n",
    },
    Script {
        lines: "create\nstart-append 1 aa\nstart-append 1 bb\nfinish 2\nsync 1 2\nsync 1 3\nfinish 1\nsync 1 2\nfinish 1\n",
        replies: b"blob 1\nticket 1 version 1 at 0 size 1\nticket 2 version 2 at 1 size 2\npublished 0\nerror pending 2 held 1\nerror not-published 3 0\npublished 2\nsynced 2\nerror no-ticket 1\n",
    },
];
