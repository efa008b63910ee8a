//! Tests of commands that `tclive` has and scripts don't have.

use super::check_answers;

#[test]
fn the_flags_of_a_link_are_reported_of_its_channel_alone(rt: HostRuntime) {
    check_answers(
        &rt,
        rt.alloc(),
        "channel 1 10 1 0\nchannel 2 10 1 0\nlink 1 1 0\nclcw 1\nclcw 2\nlink 2 0 1\nclcw 1\nclcw 2\nlink 1 1 1\nclcw 1\nlink 1 0 0\nclcw 1\nlink 3 1 1\nlink 255 1 1\n",
        "link 1 1 0\nclcw 1 01048000\nclcw 2 01080000\nlink 2 0 1\nclcw 1 01048000\nclcw 2 01084000\nlink 1 1 1\nclcw 1 0104c000\nlink 1 0 0\nclcw 1 01040000\nrefused channel\nrefused channel\nfinal 1 01040000 events 0 buffered 0\nfinal 2 01080000 events 0 buffered 0\n",
    );
}

#[test]
fn the_flags_of_a_link_stand_beside_the_others(rt: HostRuntime) {
    check_answers(
        &rt,
        rt.alloc(),
        "channel 1 10 1 0\nlink 1 1 1\nframe 002a040880401005c0\nclcw 1\n",
        "link 1 1 1\nframe 1 E5 accepted 0 queued 0 dropped 0 rest 0\nclcw 1 0104e000\nfinal 1 01042000 events 1 buffered 0\n",
    );
}

#[test]
fn a_report_says_what_a_channel_has_come_to(rt: HostRuntime) {
    check_answers(
        &rt,
        rt.alloc(),
        "channel 1 10 1 0\nqueue 1 7 1\nqueue 1 5 1\nmap 1 3 2\nmap 1 0 1\nreport 1\nframe 002a040c00c31005c0000000aa\nframe 002a040c01c01005c0000000aa\nreport 1\nrelease 1\nframe 202a040c00c51005c0000000aa\nreport 1\nframe 002a040c80c01005c0000000aa\nreport 1\nreport 2\n",
        "report 1 state open vr 0 lockout 0 wait 0 retransmit 0 farm-b 0 buffered 0 queue 7 0 queue 5 0 map 3 0 map 0 0\nframe 1 E1 accepted 1 queued 0 dropped 0 rest 0\nframe 1 E2 accepted 0 queued 0 dropped 0 rest 0\nreport 1 state wait vr 1 lockout 0 wait 1 retransmit 1 farm-b 0 buffered 1 queue 7 0 queue 5 0 map 3 0 map 0 0\nrelease 1 queued 1 dropped 0 rest 0\nframe 1 E6 accepted 1 queued 1 dropped 0 rest 0\nreport 1 state open vr 1 lockout 0 wait 0 retransmit 1 farm-b 1 buffered 0 queue 7 0 queue 5 1 map 3 1 map 0 0\nframe 1 E5 accepted 0 queued 0 dropped 0 rest 0\nreport 1 state lockout vr 1 lockout 1 wait 0 retransmit 1 farm-b 1 buffered 0 queue 7 0 queue 5 1 map 3 1 map 0 0\nrefused channel\nfinal 1 01042a01 events 5 buffered 0\nqueue 1 7 0\nqueue 1 5 1\nmap 1 3 1\nmap 1 0 0\n",
    );
}

#[test]
fn a_delivery_hands_on_all_that_waits(rt: HostRuntime) {
    check_answers(
        &rt,
        rt.alloc(),
        "deliver 1\nchannel 1 10 2 0\nqueue 1 7 1\nqueue 1 5 2\nmap 1 3 2\nchannel 2 10 1 9\ndeliver 1\nqueue 1 6 1\nframe 202a041300c01005c0000000bb1007c0000000cc\nframe 202a040700c3ddee\nframe 002a040c00c01005c0000000aa\nframe 002a040500c3\nlink 1 1 0\ndeliver 1\ndeliver 1\ndeliver 1\ndeliver 2\ndeliver 3\ndeliver\ndeliver 256\n",
        "bad no channel\nrefused empty\nclcw 1 01040000\nbad too late\nframe 1 E6 accepted 1 queued 2 dropped 0 rest 0\nframe 1 E6 accepted 1 queued 1 dropped 0 rest 0\nframe 1 E1 accepted 1 queued 0 dropped 0 rest 0\nframe 1 E4 accepted 0 queued 0 dropped 0 rest 0\nlink 1 1 0\nrelease 1 queued 1 dropped 0 rest 0\ntake 1 7 1007c0000000cc\ntake 1 5 1005c0000000bb\ntake 1 5 1005c0000000aa\nunit 1 3 ddee\nclcw 1 01048401\nrefused empty\nclcw 1 01048401\nrefused empty\nclcw 1 01048401\nrefused empty\nclcw 2 01080009\nrefused channel\nbad wrong number of words: write deliver VC\nbad number: VC is 0 to 63\nfinal 1 01040401 events 9 buffered 0\nqueue 1 7 0\nqueue 1 5 0\nmap 1 3 0\nfinal 2 01080009 events 0 buffered 0\n",
    );
}

#[test]
fn a_collection_hands_on_without_a_release(rt: HostRuntime) {
    check_answers(
        &rt,
        rt.alloc(),
        "collect 1\nchannel 1 10 2 0\nqueue 1 5 2\nframe 002a040c00c01005c0000000aa\nframe 202a040c00c01005c0000000bb\ncollect 1\ncollect 1\ndeliver 1\ncollect 2\ncandidate 202a040c00c01005c0000000bb55\ncandidate 00\n",
        "bad no channel\nframe 1 E1 accepted 1 queued 0 dropped 0 rest 0\nframe 1 E6 accepted 1 queued 1 dropped 0 rest 0\ntake 1 5 1005c0000000bb\nclcw 1 01040201\nclcw 1 01040201\nrelease 1 queued 1 dropped 0 rest 0\ntake 1 5 1005c0000000aa\nclcw 1 01040201\nrefused channel\nframe 1 E6 accepted 1 queued 1 dropped 0 rest 0\nrefused short\nfinal 1 01040401 events 6 buffered 0\nqueue 1 5 1\n",
    );
}

#[test]
fn a_delivery_releases_one_data_field(rt: HostRuntime) {
    check_answers(
        &rt,
        rt.alloc(),
        "channel 1 10 2 0\nmap 1 3 2\nframe 002a040600c3ee\nframe 002a040501c3\nframe 002a040601c3dd\ndeliver 1\nreport 1\ndeliver 1\n",
        "frame 1 E1 accepted 1 queued 0 dropped 0 rest 0\nframe 1 E1 accepted 1 queued 0 dropped 0 rest 0\nframe 1 E4 accepted 0 queued 0 dropped 0 rest 0\nrelease 1 queued 1 dropped 0 rest 0\nunit 1 3 ee\nclcw 1 01040002\nreport 1 state open vr 2 lockout 0 wait 0 retransmit 0 farm-b 0 buffered 1 map 3 0\nrelease 1 queued 1 dropped 0 rest 0\nunit 1 3 -\nclcw 1 01040002\nfinal 1 01040002 events 7 buffered 0\nmap 1 3 0\n",
    );
}
