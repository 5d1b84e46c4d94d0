// What no clause says: the toy's formulas against values from outside, tapes that are in the
// grammar or not, and one call of each public function with ample memory.
use key_device::{
    DeviceFault, KeyDevice, Point, Recorder, ReplayDevice, TapeFault, ToyDevice, ask_fresh,
    ask_signature, ask_verified, failures_told_are_counted, followed_plan_has_one_outcome,
    followed_plan_over_its_sources, followed_plan_over_its_talk, followed_plan_over_what_was_left,
    own_devices_give_as_they_say, plans_are_followed_in_parts, steps_go_on_at_the_end,
    types_are_send_and_sync, written_tape_is_read,
};
use mdoc_outside::Octets;
use std::alloc::Global;
use std::test::Fail;

// What `tests/vectors/toy_device_values` writes.
const TOY_TAPE: [&[u8]; 10] = [
    b"fresh -> 4294967295 395e5c746e9083b8a8f7367dabf0dce43d1584a1ca5263dcfc9fa9653ad7892e 452becf81aefd77f51d31d2f59e8f5b8b3d810a454c93fbeda56055f77552f3f\n",
    b"fresh -> failed\n",
    b"agree 4294967295 12758ca21f22411b2c7e7b190c31f687289905e3a7bbc6e931281815cbbda37f 577ff09dd76d0745e711ad366b90669c16f6bde6b35b788f96ced7d9b410a348 -> 77f073d8a46f5180a25cf7d4e9210f76c06976c8b3dddc3234673a909c502955\n",
    b"agree 0 12758ca21f22411b2c7e7b190c31f687289905e3a7bbc6e931281815cbbda37f 577ff09dd76d0745e711ad366b90669c16f6bde6b35b788f96ced7d9b410a348 -> 8d8b5e9deebb0d6fceb4e7c1013f69e5532e4621a64e3e1da489471517b12209\n",
    b"agree 10 0000000000000000000000000000000000000000000000000000000000000000 0000000000000000000000000000000000000000000000000000000000000000 -> refused\n",
    b"sign 4294967295 616263 -> acd8a079e4d19b451ceae94bce3668c32a0a353830e3e34941446f7b744a988b34e567e2092a13139cd27922e0e4bcce46994a8667b7e768a46640515e794052\n",
    b"sign 5 - -> 351927c7d3e9e26df0ef1200b97003566a9be62f015507ac7c7f051167534f9495602ae2640c7a06cb33a3788a463c334d1e495df3fe7867e3e3b38a8bf15dab\n",
    b"verify 395e5c746e9083b8a8f7367dabf0dce43d1584a1ca5263dcfc9fa9653ad7892e 452becf81aefd77f51d31d2f59e8f5b8b3d810a454c93fbeda56055f77552f3f 616263 acd8a079e4d19b451ceae94bce3668c32a0a353830e3e34941446f7b744a988b34e567e2092a13139cd27922e0e4bcce46994a8667b7e768a46640515e794052 -> yes\n",
    b"verify 395e5c746e9083b8a8f7367dabf0dce43d1584a1ca5263dcfc9fa9653ad7892e 452becf81aefd77f51d31d2f59e8f5b8b3d810a454c93fbeda56055f77552f3f - acd8a079e4d19b451ceae94bce3668c32a0a353830e3e34941446f7b744a988b34e567e2092a13139cd27922e0e4bcce46994a8667b7e768a46640515e794052 -> no\n",
    b"verify 395e5c746e9083b8a8f7367dabf0dce43d1584a1ca5263dcfc9fa9653ad7892e 452becf81aefd77f51d31d2f59e8f5b8b3d810a454c93fbeda56055f77552f3f 616263 acd8a079e4d19b451ceae94bce3668c32a0a353830e3e34941446f7b744a988b0000000000000000000000000000000000000000000000000000000000000000 -> no\n",
];

fn text_of(alloc: Global, lines: &[&[u8]]) -> Result<Vec<u8>, Fail> {
    let mut text = Vec::new(alloc);
    for line in lines {
        text.extend_from_slice(line)?;
    }
    Ok(text)
}

// Asks what the tape above holds. A failure is an answer too.
fn ask_all<D: KeyDevice>(device: &mut D, public: &Point, peer: &Point) -> Result<(), DeviceFault> {
    const LAST: u32 = u32::MAX;
    let nobody = Point {
        x: [0; 32],
        y: [0; 32],
    };
    let _ = device.fresh()?;
    let _ = device.fresh();
    let _ = device.agree(LAST, peer)?;
    let _ = device.agree(0, peer)?;
    let _ = device.agree(10, &nobody)?;
    let signature = device.sign(LAST, b"abc")?;
    let _ = device.sign(5, b"")?;
    let _ = device.verify(public, b"abc", &signature)?;
    let _ = device.verify(public, b"", &signature)?;
    let mut half = signature;
    half[32..].copy_from_slice(&[0; 32]);
    let _ = device.verify(public, b"abc", &half)?;
    Ok(())
}

#[test]
fn toy_device_has_the_values_from_outside(rt: HostRuntime) -> Result<(), Fail> {
    let alloc = rt.alloc();
    let wanted = text_of(alloc, &TOY_TAPE)?;
    let public = ToyDevice::new(7, 1, u32::MAX).fresh()?.public;
    let peer = ToyDevice::new(7, 2, 9).fresh()?.public;
    let mut toy = Recorder::new(alloc, ToyDevice::new(7, 1, u32::MAX));
    ask_all(&mut toy, &public, &peer)?;
    assert_eq!(rt; toy.talk().len(), TOY_TAPE.len());
    assert_eq!(rt; toy.tape(0)?.as_slice(), wanted.as_slice());
    let mut replay = Recorder::new(alloc, ReplayDevice::read(alloc, &wanted)?);
    ask_all(&mut replay, &public, &peer)?;
    assert_eq!(rt; replay.tape(0)?.as_slice(), wanted.as_slice());
    Ok(())
}

#[test]
fn devices_of_one_seed_work_together(rt: HostRuntime) -> Result<(), Fail> {
    let mut wallet = ToyDevice::new(3, 1, 0);
    let mut reader = ToyDevice::new(3, 2, 0);
    let one = wallet.fresh()?;
    let other = reader.fresh()?;
    let ours = wallet.agree(one.key, &other.public)?;
    let theirs = reader.agree(other.key, &one.public)?;
    assert_eq!(rt; ours, theirs);
    let signature = wallet.sign(one.key, b"m")?;
    assert_eq!(rt; reader.verify(&one.public, b"m", &signature)?, true);
    assert_eq!(rt; reader.verify(&other.public, b"m", &signature)?, false);
    Ok(())
}

#[test]
fn question_that_differs_keeps_its_place(rt: HostRuntime) -> Result<(), Fail> {
    let alloc = rt.alloc();
    let lines: [&[u8]; 3] = [
        b"fresh -> failed\n",
        TOY_TAPE[0],
        b"sign 1 aa -> 33333333333333333333333333333333333333333333333333333333333333333333333333333333333333333333333333333333333333333333333333333333\n",
    ];
    let mut device = ReplayDevice::read(alloc, &text_of(alloc, &lines)?)?;
    assert_eq!(rt; device.fresh(), Err(DeviceFault::Failed));
    assert_eq!(rt; device.fresh()?.key, u32::MAX);
    assert_eq!(rt; device.sign(1, &[0xbb]), Err(DeviceFault::Failed));
    assert_eq!(rt; device.sign(1, &[0xaa])?, [0x33; 64]);
    assert_eq!(rt; device.fresh().is_err(), true);
    Ok(())
}

#[test]
fn tapes_are_read_strictly(rt: HostRuntime) -> Result<(), Fail> {
    // Each text with the number of its first bad line, 0 for none.
    let cases: [(&[u8], u64); 46] = [
        (b"", 0),
        (b"fresh -> failed\n", 0),
        (b"fresh -> failed", 1),
        (b"fresh -> failed\nfresh\n", 2),
        (b"fresh -> failed\n\n", 2),
        (b"\n", 1),
        (b"fresh  -> failed\n", 1),
        (b" fresh -> failed\n", 1),
        (b"fresh -> failed \n", 1),
        (b"fresh -> failed\r\n", 1),
        (b"# none\n", 1),
        (b"fresh -> failed\n# none\n", 2),
        (b"fresh -> refused\n", 1),
        (b"fresh\t-> failed\n", 1),
        (b"fresh => failed\n", 1),
        (b"sign 1 aa -> failed\n", 0),
        (b"sign 1 - -> failed\n", 0),
        (b"sign 1 AA -> failed\n", 1),
        (b"sign 1 a -> failed\n", 1),
        (b"sign 1  -> failed\n", 1),
        (b"sign 01 aa -> failed\n", 1),
        (b"sign +1 aa -> failed\n", 1),
        (b"sign 00 aa -> failed\n", 1),
        (b"sign 0 aa -> failed\n", 0),
        (b"sign 4294967295 aa -> failed\n", 0),
        (b"sign 4294967296 aa -> failed\n", 1),
        (b"sign - aa -> failed\n", 1),
        (b"sign 1 aa -> refused\n", 1),
        (b"sign 1 aa -> yes\n", 1),
        (b"sign 1 aa -> \n", 1),
        (b"sign 1 aa failed\n", 1),
        (b"Sign 1 aa -> failed\n", 1),
        (
            b"fresh -> 1 1111111111111111111111111111111111111111111111111111111111111111 2222222222222222222222222222222222222222222222222222222222222222\n",
            0,
        ),
        (
            b"fresh -> 1 1A11111111111111111111111111111111111111111111111111111111111111 2222222222222222222222222222222222222222222222222222222222222222\n",
            1,
        ),
        (
            b"fresh -> 1 111111111111111111111111111111111111111111111111111111111111111 2222222222222222222222222222222222222222222222222222222222222222\n",
            1,
        ),
        (
            b"fresh -> - 1111111111111111111111111111111111111111111111111111111111111111 2222222222222222222222222222222222222222222222222222222222222222\n",
            1,
        ),
        (
            b"agree 1 1111111111111111111111111111111111111111111111111111111111111111 2222222222222222222222222222222222222222222222222222222222222222 -> refused\n",
            0,
        ),
        (
            b"agree 1 1111111111111111111111111111111111111111111111111111111111111111 2222222222222222222222222222222222222222222222222222222222222222 -> 1111111111111111111111111111111111111111111111111111111111111111\n",
            0,
        ),
        (
            b"agree 1 1111111111111111111111111111111111111111111111111111111111111111 2222222222222222222222222222222222222222222222222222222222222222 -> 33333333333333333333333333333333333333333333333333333333333333333333333333333333333333333333333333333333333333333333333333333333\n",
            1,
        ),
        (
            b"agree 1 1111111111111111111111111111111111111111111111111111111111111111 -> refused\n",
            1,
        ),
        (
            b"agree 1 1111111111111111111111111111111111111111111111111111111111111111 2222222222222222222222222222222222222222222222222222222222222222 -> -\n",
            1,
        ),
        (
            b"verify 1111111111111111111111111111111111111111111111111111111111111111 2222222222222222222222222222222222222222222222222222222222222222 - 33333333333333333333333333333333333333333333333333333333333333333333333333333333333333333333333333333333333333333333333333333333 -> yes\n",
            0,
        ),
        (
            b"verify 1111111111111111111111111111111111111111111111111111111111111111 2222222222222222222222222222222222222222222222222222222222222222 - 33333333333333333333333333333333333333333333333333333333333333333333333333333333333333333333333333333333333333333333333333333333 -> failed\n",
            0,
        ),
        (
            b"verify 1111111111111111111111111111111111111111111111111111111111111111 2222222222222222222222222222222222222222222222222222222222222222 - 1111111111111111111111111111111111111111111111111111111111111111 -> no\n",
            1,
        ),
        (
            b"verify 1111111111111111111111111111111111111111111111111111111111111111 2222222222222222222222222222222222222222222222222222222222222222 33333333333333333333333333333333333333333333333333333333333333333333333333333333333333333333333333333333333333333333333333333333 -> no\n",
            1,
        ),
        (
            b"verify 1111111111111111111111111111111111111111111111111111111111111111 2222222222222222222222222222222222222222222222222222222222222222 - 33333333333333333333333333333333333333333333333333333333333333333333333333333333333333333333333333333333333333333333333333333333 -> no\nfresh -> failed\nfresh -> failed",
            3,
        ),
    ];
    for (text, wanted) in cases {
        let bad = match ReplayDevice::read(rt.alloc(), text) {
            Ok(_) => 0,
            Err(TapeFault::Line(number)) => number,
            Err(TapeFault::Memory) => u64::MAX,
        };
        assert_eq!(rt; bad, wanted, "at {text:?}");
    }
    Ok(())
}

#[test]
fn devices_cross_threads() {
    types_are_send_and_sync::<ToyDevice>();
    followed_plan_over_its_talk::<u8>();
    followed_plan_over_its_sources::<u8>();
    followed_plan_has_one_outcome::<u8>();
    plans_are_followed_in_parts::<u8, u32>();
    steps_go_on_at_the_end::<u8, u32>();
    failures_told_are_counted::<ToyDevice>();
    followed_plan_over_what_was_left::<u8>();
    own_devices_give_as_they_say();
    written_tape_is_read();
}

fn replay_of(alloc: Global, tape: &Octets) -> Result<Recorder<ReplayDevice>, TapeFault> {
    let device = ReplayDevice::read(alloc, tape.as_slice())?;
    Ok(Recorder::new(alloc, device))
}

/// Makes 999 keys and signs with the key 3.
fn make_and_sign<D: KeyDevice>(
    message: &[u8],
    device: &mut Recorder<D>,
) -> Result<[u8; 64], DeviceFault> {
    for _ in 0..999 {
        let _ = ask_fresh::<D, DeviceFault>(device)?;
    }
    ask_signature::<D, DeviceFault>(3, message, device)
}

/// Whether a tape of these questions is played to its end with that signature.
fn is_played(
    alloc: Global,
    tape: &Octets,
    message: &[u8],
    signature: &[u8; 64],
) -> Result<bool, Fail> {
    let mut replay = replay_of(alloc, tape)?;
    let is_same = make_and_sign(message, &mut replay)? == *signature;
    Ok(is_same && replay.tape(0)?.as_slice() == tape.as_slice())
}

#[test]
fn long_talk_and_long_message_are_replayed(rt: HostRuntime) -> Result<(), Fail> {
    let alloc = rt.alloc();
    let message = vec![in alloc; 0xa5; 100_000]?;
    let mut toy = Recorder::new(alloc, ToyDevice::new(1, 1, 0));
    let signature = make_and_sign(&message, &mut toy)?;
    assert!(rt; toy.talk().len() == 1000);
    let whole = toy.tape(0)?;
    let last = toy.tape(999)?;
    assert!(rt; last.as_slice().len() == "sign 3  -> \n".len() + 200_000 + 128);
    assert!(rt; whole.as_slice().ends_with(last.as_slice()));
    assert!(rt; is_played(alloc, &whole, &message, &signature)?);
    let mut replay = replay_of(alloc, &last)?;
    assert!(rt; ask_signature::<ReplayDevice, DeviceFault>(3, &message, &mut replay)? == signature);
    Ok(())
}

#[test]
fn device_of_one_seed_verifies(rt: HostRuntime) -> Result<(), Fail> {
    let mut device = Recorder::new(rt.alloc(), ToyDevice::new(3, 1, 4));
    let made = ask_fresh::<ToyDevice, DeviceFault>(&mut device)?;
    let signature = ask_signature::<ToyDevice, DeviceFault>(made.key, b"m", &mut device)?;
    assert!(rt;
        ask_verified::<ToyDevice, DeviceFault>(&made.public, b"m", &signature, &mut device)?
    );
    assert!(rt;
        !ask_verified::<ToyDevice, DeviceFault>(&made.public, b"n", &signature, &mut device)?
    );
    Ok(())
}
