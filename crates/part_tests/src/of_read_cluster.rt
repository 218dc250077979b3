use read_cluster::{choose, cluster_has_one_length};

#[test]
fn chooses_the_longest_cluster(rt: HostRuntime) {
    let table: [(&[bool], u32, u32, u32); 7] = [
        (&[true, true, true, true], 4, 2, 1),
        (&[true, true, true, true], 4, 9, 4),
        (&[true, true, true, true], 3, 9, 3),
        (&[true, true, false, true], 4, 9, 2),
        (&[true, true], 8, 4096, 2),
        (&[true, true, true, true], 4, 1, 1),
        (&[true, true, true, true], 4, 4, 3),
    ];
    for (out, pfc, free, length) in table {
        if out.first() == Some(&true) && pfc >= 1 && free >= 1 {
            assert_eq!(rt; choose(out, pfc, free), length);
        }
    }
    cluster_has_one_length();
}
