// Each operator on its happy path and for each of its faults. A line has the spelled list of an operator's code and its
// operands, and what comes of it: the spelled value, the cost, the pairs and the bytes; or the fault; or the list that is
// raised. Behind # stand the cost by its parts, and the bytes, which are 8 more than those of each new atom.
pub(super) const CASES: &str = "
# i, c, f, r, l, x
ff03ff80ff05ff0680 gives 06 33 0 0
ff03ff00ff05ff0680 gives 05 33 0 0
ff03ffff0506ff05ff0680 gives 05 33 0 0
ff03ff01ff0280 fails Count
ff03ff01ff02ff03ff0480 fails Count
ff04ff05ff0680 gives ff0506 50 1 0
ff04ff0580 fails Count
ff04ff05ff06ff0780 fails Count
ff05ffff050680 gives 05 30 0 0
ff05ff0580 fails Operand(0)
ff0580 fails Count
ff05ffff0506ffff050680 fails Count
ff06ffff050680 gives 06 30 0 0
ff06ff8080 fails Operand(0)
ff0680 fails Count
ff06ff05ff0580 fails Count
ff07ffff050680 gives 01 19 0 0
ff07ff0580 gives 80 19 0 0
ff0780 fails Count
ff07ff05ff0580 fails Count
ff08ff05ffff050680 raises ff05ffff050680
ff0880 raises 80
# = costs 117 and 1 for each byte; so does >s
ff09ff05ff0580 gives 01 119 0 0 # 117 + 2
ff09ff05ff82000580 gives 80 120 0 0 # 117 + 3
ff09ff80ff8080 gives 01 117 0 0
ff09ff0580 fails Count
ff09ff05ff05ff0580 fails Count
ff09ffff0506ffff050680 fails Operand(0)
ff09ff05ffff050680 fails Operand(1)
ff0aff83616263ff82616280 gives 01 122 0 0 # 117 + 5
ff0aff826162ff8361626380 gives 80 122 0 0 # 117 + 5
ff0aff62ff82616280 gives 01 120 0 0 # 117 + 3
ff0aff826162ff6280 gives 80 120 0 0 # 117 + 3
ff0aff61ff6180 gives 80 119 0 0 # 117 + 2
ff0aff81ffff7f80 gives 01 119 0 0 # 117 + 2
ff0aff0580 fails Count
ff0aff05ff05ff0580 fails Count
ff0affff0506ff0580 fails Operand(0)
ff0aff05ffff050680 fails Operand(1)
# sha256 costs 87, 134 for each operand, 2 for each byte, and 320 for the hash's 32 bytes
ff0b80 gives a0e3b0c44298fc1c149afbf4c8996fb92427ae41e4649b934ca495991b7852b855 407 0 40 # 87 + 320; 32 + 8
ff0bff61ff82626380 gives a0ba7816bf8f01cfea414140de5dae2223b00361a396177a9cb410ff61f20015ad 681 0 40 # 87 + 2 * 134 + 3 * 2 + 320; 32 + 8
ff0bffff050680 fails Operand(0)
ff0bff05ffff050680 fails Operand(1)
# substr costs 1
ff0cff8568656c6c6fff01ff0380 gives 82656c 1 0 10 # 1; 2 + 8
ff0cff8568656c6c6fff80ff0580 gives 8568656c6c6f 1 0 13 # 1; 5 + 8
ff0cff8568656c6c6fff0280 gives 836c6c6f 1 0 11 # 1; 3 + 8
ff0cff8568656c6c6fff0580 gives 80 1 0 8
ff0cff8568656c6c6fff02ff0280 gives 80 1 0 8
ff0cff8568656c6c6fff05ff0580 gives 80 1 0 8
ff0cff8568656c6c6fff03ff0280 fails Operand(1)
ff0cff8568656c6c6fff80ff0680 fails Operand(1)
ff0cff8568656c6c6fff0680 fails Operand(1)
ff0cff8568656c6c6fff81ff80 fails Operand(1)
ff0cff8568656c6c6fff81ffff0280 fails Operand(1)
ff0cff8568656c6c6fff80ff81ff80 fails Operand(1)
ff0cff8568656c6c6fff907fffffffffffffffffffffffffffffff80 fails Operand(1)
ff0cffff0506ff8080 fails Operand(0)
ff0cff8568656c6c6fffff050680 fails Operand(1)
ff0cff8568656c6c6fff80ffff050680 fails Operand(2)
ff0cff8568656c6c6fff910000000000000000000000000000000000ffff050680 fails Wide
ff0cff8568656c6c6fff09ff91000000000000000000000000000000000080 fails Wide
ff0cff8568656c6c6f80 fails Count
ff0cff8568656c6c6fff80ff80ff8080 fails Count
# strlen costs 173, 1 for each byte, and 10 for each byte of the length
ff0dff8568656c6c6f80 gives 05 188 0 9 # 173 + 5 + 10; 1 + 8
ff0dff8080 gives 80 173 0 8
ff0dffff050680 fails Operand(0)
ff0d80 fails Count
ff0dff05ff0580 fails Count
# concat costs 142, 135 for each operand, and 3 and 10 for each byte
ff0e80 gives 80 142 0 8
ff0eff826162ff6380 gives 83616263 451 0 11 # 142 + 2 * 135 + 3 * 3 + 3 * 10; 3 + 8
ff0eff61ffff050680 fails Operand(1)
# + and - cost 99, 320 for each operand, 3 for each byte, and 10 for each byte of the result
ff1080 gives 80 99 0 8
ff10ff05ff0680 gives 0b 755 0 9 # 99 + 2 * 320 + 2 * 3 + 10; 1 + 8
ff10ff82000580 gives 05 435 0 9 # 99 + 320 + 2 * 3 + 10; 1 + 8
ff10ff9080000000000000000000000000000000ff8080 gives 9080000000000000000000000000000000 947 0 24 # 99 + 2 * 320 + 16 * 3 + 16 * 10; 16 + 8
ff10ff907fffffffffffffffffffffffffffffffff908000000000000000000000000000000080 gives 81ff 845 0 9 # 99 + 2 * 320 + 32 * 3 + 10; 1 + 8
ff10ff907fffffffffffffffffffffffffffffffff0180 fails Wide
ff10ff907fffffffffffffffffffffffffffffffff01ff81ff80 fails Wide
ff10ff9080000000000000000000000000000000ff81ffff0180 fails Wide
ff10ff91000000000000000000000000000000000080 fails Wide
ff10ffff0506ff91000000000000000000000000000000000080 fails Operand(0)
ff10ff910000000000000000000000000000000000ffff050680 fails Wide
ff10ff907fffffffffffffffffffffffffffffffff01ffff050680 fails Operand(2)
ff1180 gives 80 99 0 8
ff11ff0580 gives 05 432 0 9 # 99 + 320 + 3 + 10; 1 + 8
ff11ff05ff0680 gives 81ff 755 0 9 # 99 + 2 * 320 + 2 * 3 + 10; 1 + 8
ff11ff05ff06ff0780 gives 81f8 1078 0 9 # 99 + 3 * 320 + 3 * 3 + 10; 1 + 8
ff11ff9080000000000000000000000000000000ff0180 fails Wide
ff11ff80ff908000000000000000000000000000000080 fails Wide
ff11ff9080000000000000000000000000000000ff01ff81ff80 fails Wide
ff11ff907fffffffffffffffffffffffffffffffff81ffff0180 fails Wide
ff11ff05ffff050680 fails Operand(1)
ff11ff05ff91000000000000000000000000000000000080 fails Wide
# * costs 92, for each further operand 885, 6 for each byte of it and of the product so far, and their lengths
# multiplied and divided by 128, and 10 for each byte of the result
ff1280 gives 01 102 0 9 # 92 + 10; 1 + 8
ff12ff0580 gives 05 102 0 9 # 92 + 10; 1 + 8
ff12ff05ff0680 gives 1e 999 0 9 # 92 + 885 + 2 * 6 + 10; 1 + 8
ff12ff81fbff0680 gives 81e2 999 0 9 # 92 + 885 + 2 * 6 + 10; 1 + 8
ff12ff9000000000000000000000000000000005ff900000000000000000000000000000000680 gives 1e 1181 0 9 # 92 + 885 + 32 * 6 + 2 + 10; 1 + 8
ff12ff9000000000000000000000000000000005ff06ff0780 gives 8200d2 1996 0 10 # 92 + 885 + 17 * 6 + 885 + 2 * 6 + 2 * 10; 2 + 8
ff12ff80ff908000000000000000000000000000000080 gives 80 1073 0 8 # 92 + 885 + 16 * 6; 8
ff12ff89010000000000000000ff88400000000000000080 gives 9040000000000000000000000000000000 1239 0 24 # 92 + 885 + 17 * 6 + 16 * 10; 16 + 8
ff12ff907fffffffffffffffffffffffffffffffff02ff8080 fails Wide
ff12ff9080000000000000000000000000000000ff81ff80 fails Wide
ff12ff89010000000000000000ff8900800000000000000080 fails Wide
ff12ffff050680 fails Operand(0)
ff12ff80ffff050680 fails Operand(1)
ff12ff80ff91000000000000000000000000000000000080 fails Wide
# / costs 988, 4 for each byte, and 10 for each byte of the quotient
ff13ff07ff0280 gives 03 1006 0 9 # 988 + 2 * 4 + 10; 1 + 8
ff13ff81f9ff0280 gives 81fc 1006 0 9 # 988 + 2 * 4 + 10; 1 + 8
ff13ff07ff81fe80 gives 81fc 1006 0 9 # 988 + 2 * 4 + 10; 1 + 8
ff13ff81f9ff81fe80 gives 03 1006 0 9 # 988 + 2 * 4 + 10; 1 + 8
ff13ff06ff81fe80 gives 81fd 1006 0 9 # 988 + 2 * 4 + 10; 1 + 8
ff13ff81faff0280 gives 81fd 1006 0 9 # 988 + 2 * 4 + 10; 1 + 8
ff13ff01ff0280 gives 80 996 0 8 # 988 + 2 * 4; 8
ff13ff9080000000000000000000000000000000ff0180 gives 9080000000000000000000000000000000 1216 0 24 # 988 + 17 * 4 + 16 * 10; 16 + 8
ff13ff07ff8080 fails ZeroDivisor
ff13ff9080000000000000000000000000000000ff81ff80 fails Wide
ff13ff0780 fails Count
ff13ff07ff02ff0180 fails Count
ff13ffff0506ff8080 fails Operand(0)
ff13ff07ffff050680 fails Operand(1)
ff13ff910000000000000000000000000000000000ff8080 fails Wide
ff13ff07ff91000000000000000000000000000000000080 fails Wide
# divmod costs 1116, 6 for each byte, and 10 for each byte of both results
ff14ff07ff0280 gives ff0301 1148 1 18 # 1116 + 2 * 6 + 2 * 10; (1 + 8) + (1 + 8)
ff14ff81f9ff0280 gives ff81fc01 1148 1 18 # 1116 + 2 * 6 + 2 * 10; (1 + 8) + (1 + 8)
ff14ff07ff81fe80 gives ff81fc81ff 1148 1 18 # 1116 + 2 * 6 + 2 * 10; (1 + 8) + (1 + 8)
ff14ff81f9ff81fe80 gives ff0381ff 1148 1 18 # 1116 + 2 * 6 + 2 * 10; (1 + 8) + (1 + 8)
ff14ff06ff81fe80 gives ff81fd80 1138 1 17 # 1116 + 2 * 6 + 10; (1 + 8) + 8
ff14ff9080000000000000000000000000000000ff0380 gives ff90d555555555555555555555555555555501 1388 1 33 # 1116 + 17 * 6 + (16 + 1) * 10; (16 + 8) + (1 + 8)
ff14ff07ff8080 fails ZeroDivisor
ff14ff9080000000000000000000000000000000ff81ff80 fails Wide
ff14ff0780 fails Count
ff14ff07ff02ff0180 fails Count
ff14ff07ffff050680 fails Operand(1)
ff14ffff0506ff8080 fails Operand(0)
ff14ff910000000000000000000000000000000000ff8080 fails Wide
ff14ff07ff91000000000000000000000000000000000080 fails Wide
# > costs 498, and 2 for each byte
ff15ff02ff0180 gives 01 502 0 0 # 498 + 2 * 2
ff15ff01ff0280 gives 80 502 0 0 # 498 + 2 * 2
ff15ff81ffff8080 gives 80 500 0 0 # 498 + 2
ff15ff80ff81ff80 gives 01 500 0 0 # 498 + 2
ff15ff820005ff0580 gives 80 504 0 0 # 498 + 3 * 2
ff15ff907fffffffffffffffffffffffffffffffff908000000000000000000000000000000080 gives 01 562 0 0 # 498 + 32 * 2
ff15ff0180 fails Count
ff15ff02ff01ff0180 fails Count
ff15ffff0506ff0580 fails Operand(0)
ff15ff05ffff050680 fails Operand(1)
ff15ff910000000000000000000000000000000000ff0580 fails Wide
ff15ff05ff91000000000000000000000000000000000080 fails Wide
# ash costs 596, 3 for each byte of the value and of the result, and 10 for each byte of the result
ff16ff05ff0180 gives 0a 612 0 9 # 596 + 2 * 3 + 10; 1 + 8
ff16ff05ff81ff80 gives 02 612 0 9 # 596 + 2 * 3 + 10; 1 + 8
ff16ff81fbff81ff80 gives 81fd 612 0 9 # 596 + 2 * 3 + 10; 1 + 8
ff16ff81ffff81ff80 gives 81ff 612 0 9 # 596 + 2 * 3 + 10; 1 + 8
ff16ff05ff8080 gives 05 612 0 9 # 596 + 2 * 3 + 10; 1 + 8
ff16ff05ff82000180 gives 0a 612 0 9 # 596 + 2 * 3 + 10; 1 + 8
ff16ff80ff8300ffff80 gives 80 596 0 8
ff16ff80ff83ff000180 gives 80 596 0 8
ff16ff01ff83ff000180 gives 80 599 0 8 # 596 + 3; 8
ff16ff81ffff83ff000180 gives 81ff 612 0 9 # 596 + 2 * 3 + 10; 1 + 8
ff16ff81ffff7f80 gives 9080000000000000000000000000000000 807 0 24 # 596 + 17 * 3 + 16 * 10; 16 + 8
ff16ff01ff7e80 gives 9040000000000000000000000000000000 807 0 24 # 596 + 17 * 3 + 16 * 10; 16 + 8
ff16ff9080000000000000000000000000000000ff8080 gives 9080000000000000000000000000000000 852 0 24 # 596 + 32 * 3 + 16 * 10; 16 + 8
ff16ff9080000000000000000000000000000000ff81ff80 gives 90c0000000000000000000000000000000 852 0 24 # 596 + 32 * 3 + 16 * 10; 16 + 8
ff16ff907fffffffffffffffffffffffffffffffff81ff80 gives 903fffffffffffffffffffffffffffffff 852 0 24 # 596 + 32 * 3 + 16 * 10; 16 + 8
ff16ff90c0000000000000000000000000000000ff0180 gives 9080000000000000000000000000000000 852 0 24 # 596 + 32 * 3 + 16 * 10; 16 + 8
ff16ff903fffffffffffffffffffffffffffffffff0180 gives 907ffffffffffffffffffffffffffffffe 852 0 24 # 596 + 32 * 3 + 16 * 10; 16 + 8
ff16ff80ff8301000080 fails Shift
ff16ff80ff83ff000080 fails Shift
ff16ff01ff7f80 fails Wide
ff16ff9040000000000000000000000000000000ff0180 fails Wide
ff16ff90bfffffffffffffffffffffffffffffffff0180 fails Wide
ff16ff01ff8300ffff80 fails Wide
ff16ff81ffff82008080 fails Wide
ff16ff0580 fails Count
ff16ff05ff01ff0180 fails Count
ff16ffff0506ff8301000080 fails Operand(0)
ff16ff05ffff050680 fails Operand(1)
ff16ff05ff91000000000000000000000000000000000080 fails Wide
ff16ff910000000000000000000000000000000000ff8301000080 fails Wide
# lsh costs 277, and the same for each byte
ff17ff81ffff0180 gives 8201fe 306 0 10 # 277 + 3 * 3 + 2 * 10; 2 + 8
ff17ff81ffff81ff80 gives 7f 293 0 9 # 277 + 2 * 3 + 10; 1 + 8
ff17ff05ff8080 gives 05 293 0 9 # 277 + 2 * 3 + 10; 1 + 8
ff17ff81ffff8080 gives 8200ff 306 0 10 # 277 + 3 * 3 + 2 * 10; 2 + 8
ff17ff90ffffffffffffffffffffffffffffffffff81ff80 gives 907fffffffffffffffffffffffffffffff 533 0 24 # 277 + 32 * 3 + 16 * 10; 16 + 8
ff17ff80ff8300ffff80 gives 80 277 0 8
ff17ff01ff83ff000180 gives 80 280 0 8 # 277 + 3; 8
ff17ff90ffffffffffffffffffffffffffffffffff8080 fails Wide
ff17ff90ffffffffffffffffffffffffffffffffff0180 fails Wide
ff17ff01ff8300ffff80 fails Wide
ff17ff80ff8301000080 fails Shift
ff17ff80ff83ff000080 fails Shift
ff17ff0580 fails Count
ff17ff05ff01ff0180 fails Count
ff17ffff0506ff8080 fails Operand(0)
ff17ff05ffff050680 fails Operand(1)
ff17ff910000000000000000000000000000000000ff8080 fails Wide
ff17ff05ff91000000000000000000000000000000000080 fails Wide
# logand, logior, logxor cost 100, 264 for each operand, 3 for each byte, and 10 for each byte of the result
ff1880 gives 81ff 110 0 9 # 100 + 10; 1 + 8
ff18ff0cff0a80 gives 08 644 0 9 # 100 + 2 * 264 + 2 * 3 + 10; 1 + 8
ff18ff90ffffffffffffffffffffffffffffffffff0f80 gives 0f 689 0 9 # 100 + 2 * 264 + 17 * 3 + 10; 1 + 8
ff19ff907fffffffffffffffffffffffffffffffff8080 gives 907fffffffffffffffffffffffffffffff 836 0 24 # 100 + 2 * 264 + 16 * 3 + 16 * 10; 16 + 8
ff1aff9080000000000000000000000000000000ff8080 gives 9080000000000000000000000000000000 836 0 24 # 100 + 2 * 264 + 16 * 3 + 16 * 10; 16 + 8
ff18ff81feff0580 gives 04 644 0 9 # 100 + 2 * 264 + 2 * 3 + 10; 1 + 8
ff18ff05ffff050680 fails Operand(1)
ff18ff91000000000000000000000000000000000080 fails Wide
ff1980 gives 80 100 0 8
ff19ff0cff0a80 gives 0e 644 0 9 # 100 + 2 * 264 + 2 * 3 + 10; 1 + 8
ff19ffff050680 fails Operand(0)
ff19ff05ff91000000000000000000000000000000000080 fails Wide
ff1a80 gives 80 100 0 8
ff1aff0cff0a80 gives 06 644 0 9 # 100 + 2 * 264 + 2 * 3 + 10; 1 + 8
ff1aff0cff81ff80 gives 81f3 644 0 9 # 100 + 2 * 264 + 2 * 3 + 10; 1 + 8
ff1affff050680 fails Operand(0)
ff1aff91000000000000000000000000000000000080 fails Wide
# lognot costs 331, 3 for each byte, and 10 for each byte of the result
ff1bff0580 gives 81fa 344 0 9 # 331 + 3 + 10; 1 + 8
ff1bff8080 gives 81ff 341 0 9 # 331 + 10; 1 + 8
ff1bff908000000000000000000000000000000080 gives 907fffffffffffffffffffffffffffffff 539 0 24 # 331 + 16 * 3 + 16 * 10; 16 + 8
ff1b80 fails Count
ff1bff05ff0580 fails Count
ff1bffff050680 fails Operand(0)
ff1bff91000000000000000000000000000000000080 fails Wide
# not costs 200; any and all cost 300 more for each operand
ff20ff8080 gives 01 200 0 0
ff20ff0580 gives 80 200 0 0
ff20ffff050680 gives 80 200 0 0
ff2080 fails Count
ff20ff80ff8080 fails Count
ff2180 gives 80 200 0 0
ff21ff80ffff050680 gives 01 800 0 0 # 200 + 2 * 300
ff21ff80ff8080 gives 80 800 0 0 # 200 + 2 * 300
ff2280 gives 01 200 0 0
ff22ff05ff8080 gives 80 800 0 0 # 200 + 2 * 300
ff22ff05ffff050680 gives 01 800 0 0 # 200 + 2 * 300
# codes without an operator on values
ff01ff0580 fails NoOperator
ff02ff0580 fails NoOperator
ff0fff0580 fails NoOperator
ff1cff0580 fails NoOperator
ff23ff0580 fails NoOperator
ff820003ff0580 fails NoOperator
ff80ff0580 fails NoOperator
ffff0506ff0580 fails NoOperator
";
